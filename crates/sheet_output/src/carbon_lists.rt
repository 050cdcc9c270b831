// The indices of a chain of a row of the output, written with dots between them. Where there is room for all of them the end is looked at
// once, and a table of digits saves a division for each index. The writer is of the kind of `writer::emit`: it stores nothing past the end and counts
// on. What is said of its parts stands in specs/carbon_lists/Near.antt.
ghost use Rattle.std.specs.Prelude.{true, map, ◌+◌, ◌*◌, ◌-◌, ◌≤◌, ◌<◌, length};
ghost use Rattle.writer.specs.emit.Text.{Written, decimal};
ghost use Rattle.reading_rules.specs.reading.Parting.{joined};
ghost use Rattle.line_parts.specs.shown.Chained.{listed};
ghost use Rattle.sheet_output.specs.digit_pairs.Pairs.{Pairs};
ghost use Rattle.sheet_output.specs.carbon_lists.Near.{Near, Dotted};

use super::digit_pairs::PAIRS;
use line_parts::put_parting;
use sheet_frame::put_decimal;
use writer::put_number;

// An index of a list.
fn put_index(out: &mut [u8], at: usize, more: bool, index: u16) -> usize
    ensures { Written out.old at (listed more 46 (decimal index)) out.new result }
{
    let p = put_parting(out, at, more, b'.');
    put_decimal(out, p, index as u64)
}

// The indices of a chain, each with a look at the end.
fn put_each(out: &mut [u8], at: usize, indices: &[u16]) -> usize
    ensures { Written out.old at (joined 46 (map decimal indices.now)) out.new result }
{
    let mut p = at;
    for (i, index) in indices.iter().enumerate() {
        p = put_index(out, p, 0 < i, *index);
    }
    p
}

// A number where there is room for five digits. The second of two digits is what the tens leave: no division of its own.
fn store_number(out: &mut [u8], at: usize, n: u16) -> usize
    requires { at + 5 ≤ length out.old }
    ensures { Near 5 out.old at (decimal n) out.new result }
{
    if n < 10 {
        out[at] = (48 + n) as u8;
        return at + 1;
    }
    let tens = n / 10;
    if n < 100 {
        out[at] = (48 + tens) as u8;
        out[at + 1] = (48 + (n - tens * 10)) as u8;
        return at + 2;
    }
    if n < 1000 {
        out[at] = (48 + tens / 10) as u8;
        out[at + 1] = (48 + tens % 10) as u8;
        out[at + 2] = (48 + n % 10) as u8;
        return at + 3;
    }
    put_number(out, at, n as u32)
}

// An index of a list where there is room for a dot and five digits.
fn store_index(out: &mut [u8], at: usize, more: bool, index: u16) -> usize
    requires { at + 6 ≤ length out.old }
    ensures { Near 6 out.old at (listed more 46 (decimal index)) out.new result }
{
    if more {
        out[at] = b'.';
        return store_number(out, at + 1, index);
    }
    store_number(out, at, index)
}

// A dot and an index of two digits, from the table.
fn store_pair(out: &mut [u8], at: usize, index: u16, pairs: &[u16]) -> usize
    requires { (at + 6 ≤ length out.old) × (10 ≤ index) × (index < 100) × (100 ≤ length pairs.now) × Pairs pairs.now }
    ensures { Near 6 out.old at (listed true 46 (decimal index)) out.new result }
{
    let i = index as usize;
    let pair = pairs[i];
    out[at] = b'.';
    out[at + 1] = (pair % 256) as u8;
    out[at + 2] = (pair / 256) as u8;
    at + 3
}

// The place after some indices, and the first index that is not among them.
#[derive(Clone, Copy)]
struct Reached {
    at: usize,
    next: usize,
}

// The indices of two digits from a place of a chain on, up to one that has not two; none where there is no table. Nearly all of them have two
// digits, so they have a loop of their own.
fn store_pairs(out: &mut [u8], at: usize, indices: &[u16], from: usize, pairs: &[u16]) -> Reached
    requires { (1 ≤ from) × (from ≤ length indices.now) × (at + 6 * (length indices.now - from) ≤ length out.old) × Pairs pairs.now }
    ensures { Dotted indices.now from out.old at out.new result.at result.next }
{
    if pairs.len() < PAIRS {
        return Reached { at, next: from };
    }
    let mut p = at;
    let mut i = from;
    while i < indices.len() {
        let n = indices[i];
        if n < 10 {
            return Reached { at: p, next: i };
        }
        if 99 < n {
            return Reached { at: p, next: i };
        }
        p = store_pair(out, p, n, pairs);
        i += 1;
    }
    Reached { at: p, next: i }
}

// The indices of a chain where there is room for all of them: no look at the end.
fn store_each(out: &mut [u8], at: usize, indices: &[u16], pairs: &[u16]) -> usize
    requires { (at + 6 * length indices.now ≤ length out.old) × Pairs pairs.now }
    ensures { Written out.old at (joined 46 (map decimal indices.now)) out.new result }
{
    let mut p = at;
    let mut i = 0;
    while i < indices.len() {
        let q = store_index(out, p, 0 < i, indices[i]);
        let reached = store_pairs(out, q, indices, i + 1, pairs);
        p = reached.at;
        i = reached.next;
    }
    p
}

// The indices of a chain.
pub fn put_indices(out: &mut [u8], at: usize, indices: &[u16], pairs: &[u16]) -> usize
    requires { Pairs pairs.now }
    ensures { Written out.old at (joined 46 (map decimal indices.now)) out.new result }
{
    if out.len() < at {
        return put_each(out, at, indices);
    }
    if (out.len() - at) / 6 < indices.len() {
        return put_each(out, at, indices);
    }
    store_each(out, at, indices, pairs)
}
