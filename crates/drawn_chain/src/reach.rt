// How far a chain is drawn as it is written, and how many carbons are drawn. 01, Drawing a chain.
ghost use Rattle.std.specs.Prelude.{◌≡◌, map, max};
ghost use Rattle.chain_rules.specs.chain.Lists.{largest};
ghost use Rattle.chain_rules.specs.chain.Features.{prefix_end, literal_end, remaining, drawn_count};
ghost use Rattle.drawn_chain.specs.drawable.Drawn.{group_pin, drawn_of, Says, SaysUpTo, DrawsSome};
ghost use Rattle.drawn_chain.specs.reach.Reach.{bond_reach, ring_reach, Flexible};

use super::drawable::Shape;
use super::rooms::Lists;
use chain_record::{DbPos, Mod, Ring};

// The largest of m and the carbons at which the double bonds end.
// Kept beside the two below: one function over a closure would need what the closure says as a ghost value, and be no plainer.
fn bonds_reach(bonds: &[DbPos], m: u64) -> u64
    ensures { result ≡ largest m (map bond_reach bonds.now) }
{
    let mut reach = m;
    for bond in bonds {
        reach = reach.max(bond.pos as u64 + 1);
    }
    reach
}

// The largest of m and the positions of the groups.
fn groups_reach(groups: &[Mod], m: u64) -> u64
    ensures { result ≡ largest m (map group_pin groups.now) }
{
    let mut reach = m;
    for group in groups {
        reach = reach.max(group.pos as u64);
    }
    reach
}

// The largest of m and the ends of the rings.
fn rings_reach(rings: &[Ring], m: u64) -> u64
    ensures { result ≡ largest m (map ring_reach rings.now) }
{
    let mut reach = m;
    for ring in rings {
        reach = reach.max(ring.end as u64);
    }
    reach
}

// The last carbon of the literal prefix.
fn prefix_end(x: Shape, part: &Lists) -> u16
    ensures { SaysUpTo (drawn_of x part.now) result prefix_end }
{
    let first = x.first as u64;
    let carbon = x.carbon;
    let bonds = bonds_reach(x.bonds(part), first);
    let groups = groups_reach(x.groups(part), bonds);
    let reach = rings_reach(x.rings(part), groups);
    if reach < carbon as u64 {
        return reach as u16;
    }
    carbon
}

// R, the carbons that remain after the literal prefix.
pub fn remaining(x: Shape, part: &Lists) -> u16
    requires { DrawsSome (drawn_of x part.now) }
    ensures { Says (drawn_of x part.now) result remaining }
{
    let end = prefix_end(x, part);
    x.carbon - end
}

// The last literal carbon: c where every double bond is located.
pub fn literal_end(x: Shape, part: &Lists) -> u16
    requires { DrawsSome (drawn_of x part.now) }
    ensures { SaysUpTo (drawn_of x part.now) result literal_end }
{
    if x.unlocated == 0 {
        return x.carbon;
    }
    prefix_end(x, part)
}

// The carbons of the flexible tail.
fn flexible_count(unlocated: u16) -> u32
    ensures { Flexible unlocated result }
{
    if unlocated == 0 {
        return 0;
    }
    2 * (unlocated as u32) + 2
}

// How many carbons are drawn.
pub fn drawn_count(x: Shape, part: &Lists) -> u32
    requires { DrawsSome (drawn_of x part.now) }
    ensures { Says (drawn_of x part.now) result drawn_count }
{
    let first = x.first as u32;
    let unlocated = x.unlocated;
    let flexible = flexible_count(unlocated);
    let past = literal_end(x, part) as u32 + 1;
    if past < first {
        return flexible;
    }
    past - first + flexible
}
