// The marks and the sums of all chains of a line, from what is noted of them. The chains are gone through in the order of the text. The
// texts of single marks and sums are those of `line_parts::marks` and `line_parts::sums`.
ghost use Rattle.std.specs.Prelude.{map, take};
ghost use Rattle.reading_rules.specs.reading.Show.{show_mark, show_sum};
ghost use Rattle.line_blocks.specs.chain_marks.Put.{PutBlocks, PutParts};
ghost use Rattle.line_blocks.specs.chain_marks.Marks.{marks_of, sums_of, marks_in, sums_in};

use drawn_chain::MAX_CHAINS;
use placement::Placed;
use request_chains::in_places;
use writer::in_room;

// A place in the line, and whether the next block or part of the trailer is the first.
#[derive(Clone, Copy)]
pub struct Next {
    pub at: usize,
    pub first: bool,
}

// The marks of a chain, where it has double bonds without a position.
fn put_chain_marks(out: &mut [u8], next: Next, p: &Placed) -> Next
    ensures { PutBlocks (map show_mark (marks_of p.now)) out.old next out.new result }
{
    let n = p.unlocated;
    if n == 0 {
        return next;
    }
    let first = next.first;
    let atom = in_room(p.first) + p.flexible as u32;
    let v = in_room(p.variable);
    let at = line_parts::put_marks(out, next.at, first, atom, v, n as u32);
    Next { at, first: false }
}

// The marks of all chains.
pub fn put_all_marks(out: &mut [u8], next: Next, notes: &[Placed; MAX_CHAINS], count: usize) -> Next
    ensures { PutBlocks (map show_mark (marks_in (take count notes.now))) out.old next out.new result }
{
    let n = in_places(count);
    let chains = &notes[..n];
    let mut b = next;
    for p in chains {
        b = put_chain_marks(out, b, p);
    }
    b
}

// The sum of a chain, where it has such bonds.
fn put_chain_sum(out: &mut [u8], next: Next, p: &Placed) -> Next
    ensures { PutParts (map show_sum (sums_of p.now)) out.old next out.new result }
{
    let n = p.unlocated;
    if n == 0 {
        return next;
    }
    let first = next.first;
    let v = in_room(p.variable);
    let at = line_parts::put_sum(out, next.at, first, v, n as u32, p.total as u32);
    Next { at, first: false }
}

// The sums of all chains.
pub fn put_all_sums(out: &mut [u8], next: Next, notes: &[Placed; MAX_CHAINS], count: usize) -> Next
    ensures { PutParts (map show_sum (sums_in (take count notes.now))) out.old next out.new result }
{
    let n = in_places(count);
    let chains = &notes[..n];
    let mut b = next;
    for p in chains {
        b = put_chain_sum(out, b, p);
    }
    b
}
