// The indices of the carbons of a chain whose double bonds and groups all have a position, the groups in the order of their carbons, and which
// has no ring: they follow one another up to the next group.
ghost use Rattle.std.specs.Prelude.{◌≡◌, [], ◌∷◌, ◌+◌, ◌≤◌, ◌<◌, length};
ghost use Rattle.writer.specs.emit.Text.{Written};
ghost use Rattle.drawn_chain.specs.drawable.Drawn.{drawn_of, bonds_drawn, rings_drawn};
ghost use Rattle.carbons.specs.ByCarbon.{BondsBy};
ghost use Rattle.carbons.specs.Tokens.{Grouped};
ghost use Rattle.chain_indices.specs.atoms.Atoms.{DrawsFew, AtomsOf};
ghost use Rattle.chain_indices.specs.grouped_atoms.Groups.{Fits, GroupsNumbered};

use super::atoms::ChainAtoms;
use super::carried_atoms;
use chain_record::Mod;
use drawn_chain::{Lists, Shape};

// The carbons so far: the place after their indices, the next atom, and the first carbon that is not numbered.
#[derive(Clone, Copy)]
struct Reached {
    at: usize,
    next: u16,
    carbon: usize,
}

// A number, where there is room for it.
fn put_one(index: &mut [u16], at: usize, n: u16) -> usize
    requires { at + 1 ≤ length index.old }
    ensures { Written index.old at (n ∷ []) index.new result }
{
    index[at] = n;
    at + 1
}

// The carbons from C k on up to that of the last group, and the atoms of the groups.
fn number_groups(index: &mut [u16], at: usize, next: u16, k: usize, groups: &[Mod]) -> Reached
    requires { Fits (length index.old) at next k groups.now }
    ensures { GroupsNumbered next k groups.now index.old at index.new result }
{
    let mut p = at;
    let mut a = next;
    let mut j = k;
    for group in groups {
        let m = group.pos as usize + 1 - j;
        p = writer::fill(index, p, a, m);
        a += m as u16 + carried_atoms::branch_atoms(group.row);
        j += m;
    }
    Reached {
        at: p,
        next: a,
        carbon: j,
    }
}

// The indices of the drawn carbons of such a chain, where there is room for them and none can be too large.
pub fn number_grouped<'a>(
    index: &mut [u16],
    at: usize,
    first: u32,
    x: Shape,
    part: &'a Lists,
    bonds: &'a [u8],
) -> ChainAtoms
    requires draws_few { DrawsFew (drawn_of x part.now) }
    requires grouped { Grouped (drawn_of x part.now) }
    requires bonds_by { BondsBy (bonds_drawn (drawn_of x part.now)) (rings_drawn (drawn_of x part.now)) x.carbon bonds.now }
    requires carbon_in_bounds { (at + x.carbon ≤ length index.old) × (first < 40000) }
    ensures { AtomsOf first (drawn_of x part.now) index.old at index.new result }
{
    let lead = carried_atoms::carbonyl_atoms(x.acyl, x.first);
    let low = first as u16;
    let p = put_one(index, at, low);
    let r = number_groups(
        index,
        p,
        low + 1 + lead,
        x.first as usize + 1,
        x.groups(part),
    );
    let rest = x.carbon as usize + 1 - r.carbon;
    let end = writer::fill(index, r.at, r.next, rest);
    let next = r.next + rest as u16 - low;
    ChainAtoms {
        at: end,
        count: x.carbon - x.first + 1,
        flexible: next,
        floats: next,
        end: next,
    }
}

// The indices of the drawn carbons of such a chain that carries nothing.
pub fn number_bare(index: &mut [u16], at: usize, first: u32, x: Shape, part: &Lists) -> ChainAtoms
    requires draws_few { DrawsFew (drawn_of x part.now) }
    requires grouped { Grouped (drawn_of x part.now) }
    requires bond_count_value { (x.bond_count ≡ 0) × (x.group_count ≡ 0) }
    requires carbon_in_bounds { (at + x.carbon ≤ length index.old) × (first < 40000) }
    ensures { AtomsOf first (drawn_of x part.now) index.old at index.new result }
{
    let lead = carried_atoms::carbonyl_atoms(x.acyl, x.first);
    let low = first as u16;
    let p = put_one(index, at, low);
    let n = x.carbon - x.first;
    let end = writer::fill(index, p, low + 1 + lead, n as usize);
    let next = 1 + lead + n;
    ChainAtoms {
        at: end,
        count: n + 1,
        flexible: next,
        floats: next,
        end: next,
    }
}
