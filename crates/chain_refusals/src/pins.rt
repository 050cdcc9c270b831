// 13: unlocated double bonds before a first pin (located group or ring start) too far along the chain. What that is, is said by the
// definitions of `chain_rules::chain`.
ghost use Rattle.std.specs.Prelude.{◌≡◌, cond, map, ◌+◌, ltb};
ghost use Rattle.chain_rules.specs.chain.Lists.{all_of, is_empty};
ghost use Rattle.chain_rules.specs.chain.Refusals.{pin_too_far};
ghost use Rattle.drawn_chain.specs.drawable.Drawn.{group_pin, drawn_of, Says, DrawsSome};
ghost use Rattle.chain_refusals.specs.pins.Pins.{ring_pin, pins_in};

use chain_record::{Mod, Ring};
use drawn_chain::{Lists, Shape};

// The last carbon that a first pin may have.
fn pin_bound(first: u16, acyl: bool) -> u32
    ensures { result ≡ cond acyl 3 (first + 1) }
{
    if acyl { 3 } else { first as u32 + 1 }
}

// Whether there is no group and no ring to pin.
fn no_pins<'a>(groups: &'a [Mod], rings: &'a [Ring]) -> bool
    ensures { result ≡ is_empty (pins_in groups.now rings.now) }
{
    groups.is_empty() && rings.is_empty()
}

// Whether every group is past a carbon.
fn groups_past(groups: &[Mod], bound: u32) -> bool
    ensures { result ≡ all_of (ltb bound) (map group_pin groups.now) }
{
    groups.iter().all(|group| bound < group.pos)
}

// Whether every ring starts past a carbon.
fn rings_past(rings: &[Ring], bound: u32) -> bool
    ensures { result ≡ all_of (ltb bound) (map ring_pin rings.now) }
{
    rings.iter().all(|ring| bound < ring.start as u32)
}

// 13: unlocated bonds, and a first pin too far.
pub fn pin_too_far(x: Shape, part: &Lists) -> bool
    requires { DrawsSome (drawn_of x part.now) }
    ensures { Says (drawn_of x part.now) result pin_too_far }
{
    if x.unlocated == 0 {
        return false;
    }
    let groups = x.groups(part);
    let rings = x.rings(part);
    if no_pins(groups, rings) {
        return false;
    }
    let bound = pin_bound(x.first, x.acyl);
    if groups_past(groups, bound) {
        return rings_past(rings, bound);
    }
    false
}
