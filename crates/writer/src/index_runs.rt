// Indices that follow one another, written at a place of a lent slice.
ghost use Rattle.std.specs.Prelude.{◌≡◌, ◌+◌, ◌≤◌, ◌<◌, length};
ghost use Rattle.writer.specs.emit.Text.{Written};
ghost use Rattle.writer.specs.index_runs.Index.{in_room, index_from, indices, ups};

use super::store;

// First atoms below this leave room for the indices of a chain.
pub const FIRST_ROOM: u32 = 40000;

// Counts below this leave room for those of a chain.
const COUNT_ROOM: u32 = 4294000000;

pub fn in_room(n: u32) -> u32
    ensures { result ≡ in_room n }
{
    n.min(COUNT_ROOM)
}

// The index of the atom i of a chain whose first atom is given; an index stays at the largest number.
pub fn to_index(first: u32, i: u16) -> u16
    ensures { result ≡ index_from first i }
{
    let n = in_room(first) + i as u32;
    n.min(65535) as u16
}

// Numbers that follow one another, one by one. Where the caller names how many, no loop is left of this.
#[inline(always)]
fn fill_each(index: &mut [u16], at: usize, low: u16, n: usize) -> usize
    requires { (at + n ≤ length index.old) × (low + n < 65536) }
    ensures { Written index.old at (ups low n) index.new result }
{
    for i in 0..n {
        index[at + i] = low + i as u16;
    }
    at + n
}

// Numbers that follow one another, where there is room for all of them. Most chains have from 8 to 32: then the first of them are written and the
// last, some of them twice, and there is no loop, whose end is hard to guess.
pub fn fill(index: &mut [u16], at: usize, low: u16, n: usize) -> usize
    requires { (at + n ≤ length index.old) × (low + n < 65536) }
    ensures { Written index.old at (ups low n) index.new result }
{
    if n < 8 {
        return fill_each(index, at, low, n);
    }
    if 32 < n {
        return fill_each(index, at, low, n);
    }
    if n < 16 {
        let rest = n - 8;
        fill_each(index, at, low, 8);
        return fill_each(index, at + rest, low + rest as u16, 8);
    }
    let rest = n - 16;
    fill_each(index, at, low, 16);
    fill_each(index, at + rest, low + rest as u16, 16)
}

// The indices of n atoms that follow one another, one by one, where some may fall past the end or be too large.
fn put_each(index: &mut [u16], at: usize, first: u32, next: u16, n: usize) -> usize
    requires { next + n < 65536 }
    ensures { Written index.old at (indices first (ups next n)) index.new result }
{
    let mut p = at;
    for i in 0..n {
        p = store::put(index, p, to_index(first, next + i as u16));
    }
    p
}

// The indices of n atoms that follow one another.
pub fn put_ramp(index: &mut [u16], at: usize, first: u32, next: u16, n: usize) -> usize
    requires { next + n ≤ 23971 }
    ensures { Written index.old at (indices first (ups next n)) index.new result }
{
    if first >= FIRST_ROOM {
        return put_each(index, at, first, next, n);
    }
    if at >= index.len() {
        return put_each(index, at, first, next, n);
    }
    if n > index.len() - at {
        return put_each(index, at, first, next, n);
    }
    fill(index, at, first as u16 + next, n)
}
