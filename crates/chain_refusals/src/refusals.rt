// Features off the drawn chain (32) and features that clash (33), in the order in which 01 asks for them: each answer is a refusal, if one is
// due. The tests have modules of their own. What each answer is, is said by the definitions of `chain_rules::chain`.
ghost use Rattle.std.specs.Prelude.{◌≡◌, cond, ◌-◌};
ghost use Rattle.chain_record.specs.refusal.Refusal.{number_due};
ghost use Rattle.chain_rules.specs.chain.Refusals.{place_refusal};
ghost use Rattle.drawn_chain.specs.drawable.Drawn.{drawn_of, Says, DrawsSome};
ghost use Rattle.chain_refusals.specs.refusals.Rising.{Only, bonds_rise, ring_past, rings_rise};

use super::{clash, offchain};
use chain_record::{Bridge, DbPos, Refusal, Ring};
use drawn_chain::{Lists, Shape};

// ---- one look at each list

// Whether the double bonds rise from the first drawn carbon on and end before the last.
fn bonds_rise(bonds: &[DbPos], first: u16, carbon: u16) -> bool
    ensures { Only result (bonds_rise carbon (first - 1) bonds.now) }
{
    let mut last = first.saturating_sub(1) as u32;
    for bond in bonds {
        if bond.pos <= last {
            return false;
        }
        last = bond.pos;
    }
    last < carbon as u32
}

// Whether a ring is a carbocycle of three atoms or more that starts no earlier than a carbon.
fn ring_past(ring: Ring, least: u32) -> bool
    ensures { result ≡ ring_past least ring }
{
    let start = ring.start as u32;
    match ring.bridge {
        Bridge::Epoxide => false,
        Bridge::Carbocycle => least <= start && start + 2 <= ring.end as u32,
    }
}

// Whether the rings are such carbocycles, each starting past the start of the one before.
fn rings_rise(rings: &[Ring], least: u32) -> bool
    ensures { Only result (rings_rise least rings.now) }
{
    let mut next = least;
    for ring in rings {
        if !ring_past(*ring, next) {
            return false;
        }
        next = ring.start as u32 + 1;
    }
    true
}

// The first carbon at which a ring may start.
fn ring_bound(first: u16, acyl: bool) -> u32
    ensures { result ≡ cond acyl 2 first }
{
    if acyl { 2 } else { first as u32 }
}

// ---- 32 and 33

// 32, then 33, feature by feature.
fn listed_refusal(x: Shape, part: &Lists) -> Option<Refusal>
    requires { DrawsSome (drawn_of x part.now) }
    ensures { Says (drawn_of x part.now) (number_due result) place_refusal }
{
    if offchain::off_chain(x, part) {
        return Some(Refusal::OffChain);
    }
    if clash::clash(x, part) {
        return Some(Refusal::Clash);
    }
    None
}

// 32, then 33; none where neither is due. Of most chains one look at each list tells that neither is; the others are asked feature by feature.
pub fn place_refusal(x: Shape, part: &Lists) -> Option<Refusal>
    requires { DrawsSome (drawn_of x part.now) }
    ensures { Says (drawn_of x part.now) (number_due result) place_refusal }
{
    if x.ether_base {
        return Some(Refusal::OffChain);
    }
    if !bonds_rise(x.bonds(part), x.first, x.carbon) {
        return listed_refusal(x, part);
    }
    if offchain::any_group_off(x.groups(part), x.first, x.carbon) {
        return listed_refusal(x, part);
    }
    if rings_rise(x.rings(part), ring_bound(x.first, x.acyl)) {
        return None;
    }
    listed_refusal(x, part)
}
