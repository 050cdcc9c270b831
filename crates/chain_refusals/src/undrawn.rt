// What a chain in its place cannot be drawn for, 12 to 15: each answer is a refusal, if one is due. The tests stand in the order in which 01 asks
// them; that for 13 has a module of its own. What each answer is, is said by the definitions of `chain_rules::chain`.
ghost use Rattle.std.specs.Prelude.{◌≡◌, cond};
ghost use Rattle.chain_record.specs.refusal.Refusal.{number_due};
ghost use Rattle.chain_rules.specs.chain.Lists.{any_of};
ghost use Rattle.chain_rules.specs.chain.Refusals.{group_on_carbonyl, tail_too_short, no_site, draw_refusal};
ghost use Rattle.drawn_chain.specs.drawable.Drawn.{group_at, drawn_of, Says, DrawsSome};

use super::pins;
use chain_record::{Mod, Refusal};
use drawn_chain::{Lists, Shape};

// Whether some group sits on C1.
fn any_on_first(groups: &[Mod]) -> bool
    ensures { result ≡ any_of (group_at 1) groups.now }
{
    groups.iter().any(|group| group.pos == 1)
}

// 12: a located group at C1 of an acyl chain.
fn group_on_carbonyl(x: Shape, part: &Lists) -> bool
    ensures { Says (drawn_of x part.now) result group_on_carbonyl }
{
    if x.acyl {
        return any_on_first(x.groups(part));
    }
    false
}

// 14: a flexible tail too short for its double bonds.
fn tail_too_short(x: Shape, part: &Lists) -> bool
    requires { DrawsSome (drawn_of x part.now) }
    ensures { Says (drawn_of x part.now) result tail_too_short }
{
    let unlocated = x.unlocated as u32;
    if unlocated == 0 {
        return false;
    }
    let rest = drawn_chain::remaining(x, part) as u32;
    rest < 2 * unlocated + 2
}

// The drawn carbons in front that are no sites.
fn site_skip(acyl: bool) -> u32
    ensures { result ≡ cond acyl 1 0 }
{
    if acyl { 1 } else { 0 }
}

// 15: an unlocated group with no site.
fn no_site(x: Shape, part: &Lists) -> bool
    requires { DrawsSome (drawn_of x part.now) }
    ensures { Says (drawn_of x part.now) result no_site }
{
    if x.floats(part).is_empty() {
        return false;
    }
    let skip = site_skip(x.acyl);
    let count = drawn_chain::drawn_count(x, part);
    count <= skip
}

// 12 to 15, in order; none where none is due.
pub fn draw_refusal(x: Shape, part: &Lists) -> Option<Refusal>
    requires { DrawsSome (drawn_of x part.now) }
    ensures { Says (drawn_of x part.now) (number_due result) draw_refusal }
{
    if group_on_carbonyl(x, part) {
        return Some(Refusal::GroupOnCarbonyl);
    }
    if pins::pin_too_far(x, part) {
        return Some(Refusal::PinTooFar);
    }
    if tail_too_short(x, part) {
        return Some(Refusal::TailTooShort);
    }
    if no_site(x, part) {
        return Some(Refusal::NoSite);
    }
    None
}
