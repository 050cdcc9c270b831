// A chain as it is drawn in its place, and how its lists are read: its double bonds, groups and rings stand in arrays of one struct, which is
// lent; what is counted of them goes by value. Every function is defined for every slice and count: a count past the slice counts as its
// length. Which lists a drawn chain holds is said by specs/drawable/Drawn.antt, from the definitions
// of `chain_rules::chain`.
ghost use Rattle.std.specs.Prelude.{◌≡◌, ◌≤◌, length, take};
ghost use Rattle.drawn_chain.specs.drawable.Drawn.{drawn_of, bonds_drawn, groups_drawn, floats_drawn, rings_drawn};

use super::rooms::Lists;
use chain_record::{Bridge, DbPos, Geometry, Mod, Ring};

// Room for the double bonds read and for the one that `P-` adds.
pub const BOND_ROOM: usize = 33;

// The most chains that a template takes.
pub const MAX_CHAINS: usize = 4;

// What stands where no double bond, no group and no ring is laid yet.
pub const NO_BOND: DbPos = DbPos {
    pos: 0,
    geom: Geometry::Unstated,
};

pub const NO_GROUP: Mod = Mod { pos: 0, row: 0 };

pub const NO_RING: Ring = Ring {
    start: 0,
    end: 0,
    bridge: Bridge::Epoxide,
};

// What is drawn of a chain, but for its lists: its carbons from `first` to `carbon`, whether C1 carries a doubly bonded O, whether an ether
// stands where a base should, the number of its double bonds without a position; and how many located double bonds, groups with a position,
// groups without one, and rings it has.
#[derive(Clone, Copy)]
pub struct Shape {
    pub first: u16,
    pub carbon: u16,
    pub acyl: bool,
    pub ether_base: bool,
    pub unlocated: u16,
    pub bond_count: usize,
    pub group_count: usize,
    pub float_count: usize,
    pub ring_count: usize,
}

// The elements of a slice that a count counts.
pub fn counted<T>(xs: &[T], count: usize) -> &[T]
    ensures { result.now ≡ take count xs.now }
{
    let n = xs.len().min(count);
    &xs[..n]
}

impl Shape {
    // Its double bonds with a position.
    pub fn bonds<'a>(self, part: &'a Lists) -> &'a [DbPos]
        ensures { result.now ≡ bonds_drawn (drawn_of self part.now) }
    {
        counted(&part.bonds, self.bond_count)
    }

    // Its groups with a position.
    pub fn groups<'a>(self, part: &'a Lists) -> &'a [Mod]
        ensures are { result.now ≡ groups_drawn (drawn_of self part.now) }
        ensures fit { length result.now ≤ 18 }
    {
        counted(&part.groups, self.group_count)
    }

    // Its groups without one.
    pub fn floats<'a>(self, part: &'a Lists) -> &'a [Mod]
        ensures are { result.now ≡ floats_drawn (drawn_of self part.now) }
        ensures fit { length result.now ≤ 18 }
    {
        counted(&part.floats, self.float_count)
    }

    // Its rings.
    pub fn rings<'a>(self, part: &'a Lists) -> &'a [Ring]
        ensures are { result.now ≡ rings_drawn (drawn_of self part.now) }
        ensures fit { length result.now ≤ 8 }
    {
        counted(&part.rings, self.ring_count)
    }
}
