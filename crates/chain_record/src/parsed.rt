// The chain record: what one token says of a chain, by value, with fixed arrays of double bonds, groups and rings; and what the token reader
// adds to such arrays while they are lent to it, and counts beside them. A list or a segment is read whole before its counts are
// judged, so a push never refuses: an array keeps what its limit allows, its count stops one past the limit, and `check_counts` answers 31 there.
// What a record holds is said by specs/parsed/Parsed.antt.
ghost use Rattle.std.specs.Prelude.{◌≡◌, ◌≤◌, length};
ghost use Rattle.chain_record.specs.plain.Chain.{with_bond, with_group, with_ring, max_bonds, max_groups, max_rings};
ghost use Rattle.chain_record.specs.parsed.Parsed.{Adds, Grows, first, bonds_as, groups_as, rings_as, checked};

use super::plain::{ChainPrefix, DbPos, GROUP_ROOM, MAX_BONDS, MAX_GROUPS, MAX_RINGS, Mod, Ring};
use super::refusal::Refusal;

// What a token says of a chain. Each list stands in an array with its count beside it: the memory is fixed, and there is no heap.
#[derive(Clone, Copy)]
pub struct ParsedChain {
    pub prefix: ChainPrefix,
    pub written: u16,
    pub carbon: u16,
    pub branched: bool,
    pub unlocated: u16,
    pub oxygens: u32,
    pub bond_count: usize,
    pub bonds: [DbPos; MAX_BONDS],
    pub group_count: usize,
    pub groups: [Mod; GROUP_ROOM],
    pub ring_count: usize,
    pub rings: [Ring; MAX_RINGS],
}

// How much of each lent array is used, and the last oxygen count.
#[derive(Clone, Copy)]
pub struct Counts {
    pub bonds: usize,
    pub groups: usize,
    pub rings: usize,
    pub oxygens: u32,
}

// One element more, up to as many as there is room for; how many there are then, one past those at most.
fn push<T: Copy, const MOST: usize>(items: &mut [T; MOST], count: usize, item: T) -> usize
    requires { MOST ≤ max_bonds }
    ensures { Adds MOST (first count items.old) (first result items.new) item }
{
    if count < MOST {
        items[count] = item;
        return count + 1;
    }
    MOST + 1
}

// One double bond more; how many there are then.
pub fn push_bond(bonds: &mut [DbPos], count: usize, bond: DbPos) -> usize
    requires { max_bonds ≤ length bonds.old }
    ensures { Grows bonds_as (first count bonds.old) (first result bonds.new) (with_bond bond) }
{
    let Some(bonds) = bonds.first_chunk_mut::<MAX_BONDS>() else {
        unreachable!()
    };
    push(bonds, count, bond)
}

// One group more.
pub fn push_group(groups: &mut [Mod], count: usize, group: Mod) -> usize
    requires { max_groups ≤ length groups.old }
    ensures { Grows groups_as (first count groups.old) (first result groups.new) (with_group group) }
{
    let Some(groups) = groups.first_chunk_mut::<MAX_GROUPS>() else {
        unreachable!()
    };
    push(groups, count, group)
}

// One ring more.
pub fn push_ring(rings: &mut [Ring], count: usize, ring: Ring) -> usize
    requires { max_rings ≤ length rings.old }
    ensures { Grows rings_as (first count rings.old) (first result rings.new) (with_ring ring) }
{
    let Some(rings) = rings.first_chunk_mut::<MAX_RINGS>() else {
        unreachable!()
    };
    push(rings, count, ring)
}

// After a list or a segment: 31 where a count is over its limit.
pub fn check_counts(counts: Counts) -> Result<Counts, Refusal>
    ensures { result ≡ checked counts }
{
    if MAX_BONDS < counts.bonds {
        return Err(Refusal::OverLimit);
    }
    if MAX_GROUPS < counts.groups {
        return Err(Refusal::OverLimit);
    }
    if MAX_RINGS < counts.rings {
        return Err(Refusal::OverLimit);
    }
    Ok(counts)
}
