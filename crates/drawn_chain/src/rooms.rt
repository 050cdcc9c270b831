// The lists of a chain, each in an array of its own, and the lists of a chain among those of a request.
ghost use Rattle.std.specs.Prelude.{◌≡◌, MatchOption};
ghost use Rattle.drawn_chain.specs.rooms.Ranges.{part_of};

use super::drawable::{BOND_ROOM, NO_BOND, NO_GROUP, NO_RING};
use chain_record::{DbPos, GROUP_ROOM, MAX_RINGS, Mod, Ring};

// The lists of a chain, each with its room: its located double bonds, its groups with a position, those without one, and its rings. How many of
// each count is said by its `Shape`.
#[derive(Clone, Copy)]
pub struct Lists {
    pub bonds: [DbPos; BOND_ROOM],
    pub groups: [Mod; GROUP_ROOM],
    pub floats: [Mod; GROUP_ROOM],
    pub rings: [Ring; MAX_RINGS],
}

// Lists in which nothing stands yet.
pub const NO_LISTS: Lists = Lists {
    bonds: [NO_BOND; BOND_ROOM],
    groups: [NO_GROUP; GROUP_ROOM],
    floats: [NO_GROUP; GROUP_ROOM],
    rings: [NO_RING; MAX_RINGS],
};

// The same by a call, for arrays of lists that are still to be filled: where the constant itself is written there, the compiler stores each of
// its fields, and the bytes between them, one by one.
pub fn empty_lists() -> Lists
    ensures { result ≡ NO_LISTS }
{
    NO_LISTS
}

// The lists of the chain with an sn, if it has any.
pub fn find_part(lists: &[Lists], sn: u8) -> Option<&Lists>
    ensures { MatchOption result (part_of sn lists.now ≡ NO_LISTS) (λ p. p.now ≡ part_of sn lists.now) }
{
    lists.get(sn.saturating_sub(1) as usize)
}

// The same by value, where there are none those in which nothing stands.
pub fn chain_part(lists: &[Lists], sn: u8) -> Lists
    ensures { result ≡ part_of sn lists.now }
{
    match find_part(lists, sn) {
        Some(part) => *part,
        None => NO_LISTS,
    }
}
