// How long the line of a request is at most, by the numbers of its chains alone and before any of it is written: a line that is sure to fit can
// be written at once where it is to stand. The bound is crude, so that it costs little. Which it is, is said by specs/longest/Longest.antt.
ghost use Rattle.std.specs.Prelude.{◌≡◌, true, ◌≤◌, min};
ghost use Rattle.class_lines.specs.longest.Longest.{drawn_most, text_most, sites_most};
ghost use Rattle.class_lines.specs.longest.Covered.{shape_most, Bounded, ChainCovered, Covered, SlightAt, Slight, SlightCovered};

use drawn_chain::{MAX_CHAINS, Shape};

// The most groups with a position that a chain has room for, and the most without one.
const GROUP_ROOM: usize = 18;

// The most rings.
const RING_ROOM: usize = 8;

// Floating groups, as far as there is room for them.
fn floats_most(count: usize) -> usize
    ensures { Bounded 18 (min count 18) result }
{
    count.min(GROUP_ROOM)
}

// The drawn carbons: those written, and the flexible tail.
fn drawn_most(carbon: u16, unlocated: u16) -> usize
    ensures { Bounded 196607 (drawn_most carbon unlocated) result }
{
    carbon as usize + 2 * (unlocated as usize) + 2
}

// The text of a chain, and its atoms.
fn text_most(carbons: usize, floats: usize) -> usize
    requires { (carbons ≤ 196607) × (floats ≤ 18) }
    ensures { Bounded 600000 (text_most carbons 18 floats 8) result }
{
    3 * carbons + 14 * (GROUP_ROOM + floats + 1) + 6 * RING_ROOM
}

// A site list for each floating group.
fn sites_most(carbons: usize, floats: usize) -> usize
    requires { (carbons ≤ 196607) × (floats ≤ 18) }
    ensures { Bounded 22000000 (sites_most carbons floats) result }
{
    floats * (14 + 6 * carbons)
}

// A chain in the line: its text, a byte in the label block for each of its atoms, its site lists, and its marks with their sum. Its groups and
// rings add so little that they are not looked at.
fn shape_most(x: Shape) -> usize
    ensures { Bounded 30000000 (shape_most x) result }
{
    let carbons = drawn_most(x.carbon, x.unlocated);
    let floats = floats_most(x.float_count);
    let text = text_most(carbons, floats);
    let sites = sites_most(carbons, floats);
    2 * text + sites + 25 * (x.unlocated as usize) + 50
}

// The chain at a place; one past those that count adds nothing.
fn chain_most(count: usize, i: usize, shapes: &[Shape; MAX_CHAINS]) -> usize
    ensures { ChainCovered count shapes.now i result }
{
    if count <= i {
        return 0;
    }
    shape_most(request_chains::shape_in(shapes, i))
}

// A chain with more carbons than this, or more double bonds without a position, is long.
pub const SLIGHT_CARBONS: u16 = 30;

// What four chains add at most to a line where none of them is long: 12672 each.
const SLIGHT_MOST: usize = 50688;

// Whether the chain at a place is not long; one past those that count is none.
fn slight_at(count: usize, i: usize, shapes: &[Shape; MAX_CHAINS]) -> bool
    ensures { result ≡ true → SlightAt 30 count shapes.now i }
{
    if count <= i {
        return true;
    }
    let x = request_chains::shape_in(shapes, i);
    x.carbon <= SLIGHT_CARBONS && x.unlocated <= SLIGHT_CARBONS
}

// Whether no chain is long, as in nearly every request: then little room is needed for their indices, and `slight_most` bounds the line.
pub fn are_slight(count: usize, shapes: &[Shape; MAX_CHAINS]) -> bool
    ensures { result ≡ true → Slight 30 count shapes.now }
{
    // As a slice, whose length the proof knows.
    let kept: &[Shape] = shapes;
    for i in 0..kept.len() {
        if !slight_at(count, i, shapes) {
            return false;
        }
    }
    true
}

// A line of any class: the tail and its atoms, what the templates have of their own, and the chains.
pub fn line_most(tail: &[u8], tail_atoms: u16, count: usize, shapes: &[Shape; MAX_CHAINS]) -> usize
    ensures { Covered tail.now tail_atoms count shapes.now result }
{
    let a = chain_most(count, 0, shapes);
    let b = chain_most(count, 1, shapes);
    let c = chain_most(count, 2, shapes);
    let d = chain_most(count, 3, shapes);
    120 + tail.len() + tail_atoms as usize + (a + b + c + d)
}

// How long a line of any class is at most if none of its chains is long: cruder still than `line_most`, and no chain is looked at.
pub fn slight_most(tail: &[u8], tail_atoms: u16) -> usize
    ensures { SlightCovered 30 tail.now tail_atoms result }
{
    120 + tail.len() + tail_atoms as usize + SLIGHT_MOST
}
