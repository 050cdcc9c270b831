// 32: a feature off the chain that is drawn. What that is, is said by the definitions of `chain_rules::chain`.
ghost use Rattle.std.specs.Prelude.{◌≡◌};
ghost use Rattle.chain_rules.specs.chain.Lists.{any_of};
ghost use Rattle.chain_rules.specs.chain.Refusals.{double_off, group_off, ring_off, off_chain};
ghost use Rattle.drawn_chain.specs.drawable.Drawn.{drawn_of, Says, DrawsSome};

use chain_record::{DbPos, Mod, Ring};
use drawn_chain::{Lists, Shape};

// Whether a double bond is outside of the carbons from `first` up to, not including, `carbon`.
fn bond_off(bond: DbPos, first: u16, carbon: u16) -> bool
    ensures { result ≡ double_off first carbon bond }
{
    bond.pos < first as u32 || carbon as u32 <= bond.pos
}

// Whether a group is outside of the carbons from `first` to `carbon`.
fn group_off(group: Mod, first: u16, carbon: u16) -> bool
    ensures { result ≡ group_off first carbon group }
{
    group.pos < first as u32 || (carbon as u32) < group.pos
}

// Whether a ring starts before `first`, or at the carbonyl of an acyl chain.
fn ring_off(ring: Ring, first: u16, acyl: bool) -> bool
    ensures { result ≡ ring_off first acyl ring }
{
    ring.start < first || acyl && ring.start == 1
}

// Whether some double bond is off the chain.
fn any_bond_off(bonds: &[DbPos], first: u16, carbon: u16) -> bool
    ensures { result ≡ any_of (double_off first carbon) bonds.now }
{
    bonds.iter().any(|bond| bond_off(*bond, first, carbon))
}

// Whether some group is off the chain.
pub fn any_group_off(groups: &[Mod], first: u16, carbon: u16) -> bool
    ensures { result ≡ any_of (group_off first carbon) groups.now }
{
    groups.iter().any(|group| group_off(*group, first, carbon))
}

// Whether some ring starts off the chain.
fn any_ring_off(rings: &[Ring], first: u16, acyl: bool) -> bool
    ensures { result ≡ any_of (ring_off first acyl) rings.now }
{
    rings.iter().any(|ring| ring_off(*ring, first, acyl))
}

// 32: whether a feature is off the drawn chain. A located group on a chain without carbons is off it, so only those that float are left to
// be asked about there.
pub fn off_chain(x: Shape, part: &Lists) -> bool
    requires { DrawsSome (drawn_of x part.now) }
    ensures { Says (drawn_of x part.now) result off_chain }
{
    if any_bond_off(x.bonds(part), x.first, x.carbon) {
        return true;
    }
    if any_group_off(x.groups(part), x.first, x.carbon) {
        return true;
    }
    if any_ring_off(x.rings(part), x.first, x.acyl) {
        return true;
    }
    if x.ether_base {
        return true;
    }
    if x.carbon > 0 {
        return false;
    }
    !x.floats(part).is_empty()
}
