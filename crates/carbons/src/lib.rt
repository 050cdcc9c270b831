// The bonds of a chain in an array by carbon, with their marks, and the atoms of the carbons that carry anything: the groups and rings are gone
// through once, and after that each carbon is looked up. What stands there is what `chain_rules` draws. Arrays of noughts that reach the last
// carbon have to be lent; nothing is refused.
#![tactic(auto)]

ghost use Rattle.std.specs.Prelude.{◌≡◌, true, [], ℕ, ◌+◌, ◌≤◌, ◌<◌, min, max, length, get_or, set, replicate};
ghost use Rattle.chain_rules.specs.chain.Bonds.{open_mark, close_mark, mark_bond, close_byte, mark_from, bridged, double};
ghost use Rattle.drawn_chain.specs.drawable.Drawn.{drawn_of, bonds_drawn, rings_drawn, DrawsSome};
ghost use Rattle.carbons.specs.ByCarbon.{geometry_byte, geometry_of, double_at, bridge_at, ring_on, carbonyl_on, rises_from, RowAtoms, SetWhere, Added, Geometries, Marks, Noughts, DoublesPut, PlainBonds, BondsBy, Busy};
ghost use Rattle.carbons.specs.Tokens.{tokens, TokensOf};

use chain_record::{Bridge, DbPos, Geometry, MAX_CARBONS, Mod, Ring};
use drawn_chain::{Lists, Shape};

// Carbons 0 to 255.
pub const CARBON_ROOM: usize = 256;

// A store at a carbon; past the end there is none.
fn set_at(xs: &mut [u8], p: usize, v: u8)
    ensures { xs.new ≡ set xs.old p v }
{
    if p < xs.len() {
        xs[p] = v;
    }
}

// The bridges: where an epoxide starts.
fn set_bridges(bonds: &mut [u8], rings: &[Ring])
    ensures { SetWhere (bridge_at rings.now) bridged bonds.old bonds.new }
{
    for ring in rings.iter().rev() {
        match ring.bridge {
            Bridge::Epoxide => {
                set_at(bonds, ring.start as usize, b'O');
                continue;
            }
            Bridge::Carbocycle => {
                continue;
            }
        }
    }
}

// The double bonds.
fn set_doubles(bonds: &mut [u8], doubles: &[DbPos])
    ensures { SetWhere (double_at doubles.now) double bonds.old bonds.new }
{
    for bond in doubles.iter().rev() {
        set_at(bonds, bond.pos as usize, b'=');
    }
}

// The byte of a stated geometry: Z, E, or 0.
fn geometry_byte(g: Geometry) -> u8
    ensures { result ≡ geometry_byte g }
{
    match g {
        Geometry::Unstated => 0,
        Geometry::Cis => b'Z',
        Geometry::Trans => b'E',
    }
}

// The geometry stated at each carbon, in an array of noughts. The list is gone through from its end, so that the first of two that share a
// carbon stands.
fn set_geometries(geoms: &mut [u8], doubles: &[DbPos])
    requires { geoms.old ≡ replicate 256 0 }
    ensures { Geometries doubles.now geoms.new }
{
    for bond in doubles.iter().rev() {
        set_at(geoms, bond.pos as usize, geometry_byte(bond.geom));
    }
}

// An empty bond before a double bond is marked up.
fn open_mark(bonds: &mut [u8], p: usize)
    requires { p ≤ length bonds.old }
    ensures { bonds.new ≡ open_mark p bonds.old }
{
    if 1 < p {
        let q = p - 1;
        let b = bonds[q];
        if b == 0 {
            bonds[q] = b'/';
        }
    }
}

// The mark after a double bond: like the one before it for E, unlike it for Z.
fn close_byte(trans: bool, down: bool) -> u8
    ensures { result ≡ close_byte trans down }
{
    if trans {
        if down {
            return b'\\';
        }
        return b'/';
    }
    if down {
        return b'/';
    }
    b'\\'
}

// An empty bond after a double bond is marked, unless the chain ends there.
fn close_mark(bonds: &mut [u8], carbon: usize, trans: bool, p: usize)
    requires { (1 ≤ p) × (p ≤ carbon) × (carbon < length bonds.old) }
    ensures { bonds.new ≡ close_mark carbon trans p bonds.old }
{
    let q = p + 1;
    if q < carbon {
        let b = bonds[q];
        if b == 0 {
            let o = bonds[p - 1];
            bonds[q] = close_byte(trans, o == b'\\');
        }
    }
}

// The geometry that a byte states.
fn geometry_of(b: u8) -> Geometry
    ensures { result ≡ geometry_of b }
{
    if b == b'Z' {
        return Geometry::Cis;
    }
    if b == b'E' {
        return Geometry::Trans;
    }
    Geometry::Unstated
}

// The marks of one double bond.
fn mark_bond(bonds: &mut [u8], carbon: usize, geometry: Geometry, p: usize)
    requires { (1 ≤ p) × (p ≤ carbon) × (carbon < length bonds.old) }
    ensures { bonds.new ≡ mark_bond carbon geometry p bonds.old }
{
    match geometry {
        Geometry::Unstated => {
            return;
        }
        Geometry::Cis => {
            open_mark(bonds, p);
            close_mark(bonds, carbon, false, p);
            return;
        }
        Geometry::Trans => {
            open_mark(bonds, p);
            close_mark(bonds, carbon, true, p);
            return;
        }
    }
}

// The marks of all double bonds whose geometries a table has, by rising position.
fn mark_bonds(bonds: &mut [u8], geoms: &[u8], carbon: usize)
    requires { (carbon < length bonds.old) × (carbon < length geoms.now) }
    ensures { Marks carbon geoms.now bonds.old bonds.new }
{
    for p in 1..carbon + 1 {
        mark_bond(bonds, carbon, geometry_of(geoms[p]), p);
    }
}

// The marks of double bonds in any order: a table of the geometry stated at each carbon puts them in order.
fn mark_any(bonds: &mut [u8], doubles: &[DbPos], carbon: usize)
    requires { (carbon ≤ 255) × (carbon < length bonds.old) }
    ensures { bonds.new ≡ mark_from carbon doubles.now 1 carbon bonds.old }
{
    let mut geoms = [0u8; CARBON_ROOM];
    set_geometries(&mut geoms, doubles);
    mark_bonds(bonds, &geoms, carbon);
}

// Whether each double bond is further on than the one before it, as in nearly every name.
fn rises(doubles: &[DbPos]) -> bool
    ensures { result ≡ rises_from 0 doubles.now }
{
    let mut last = 0;
    for bond in doubles {
        if bond.pos <= last {
            return false;
        }
        last = bond.pos;
    }
    true
}

// The marks of double bonds whose positions rise: no other carbon need be looked at, and past the last one of the chain none.
fn mark_rising(bonds: &mut [u8], doubles: &[DbPos], carbon: usize)
    requires doubles_value { rises_from 0 doubles.now ≡ true }
    requires carbon_in_bounds { carbon < length bonds.old }
    ensures { bonds.new ≡ mark_from carbon doubles.now 1 carbon bonds.old }
{
    for bond in doubles {
        let p = bond.pos as usize;
        if carbon < p {
            return;
        }
        mark_bond(bonds, carbon, bond.geom, p);
    }
}

// The atoms of the branch of each row of the group table, alone: the code lays out a whole table each time it looks into one. One computed
// test ties them to the table.
const ROW_ATOMS: [u8; 17] = [2, 1, 1, 1, 1, 1, 3, 2, 1, 2, 1, 1, 1, 2, 5, 5, 3];

// The atoms of the branch of a row.
pub fn row_atoms(row: u8) -> u8
    ensures { RowAtoms row result }
{
    if row < group_table::ROW_COUNT {
        let at = row as usize;
        return ROW_ATOMS[at];
    }
    0
}

// Atoms that a carbon carries, added to those that it has: the first of them to the carbon itself.
fn add_at(xs: &mut [u8], p: usize, n: u8)
    requires { get_or xs.old p 0 + n ≤ 254 }
    ensures { xs.new ≡ set xs.old p (max (get_or xs.old p 0) 1 + n) }
{
    if p < xs.len() {
        let own = xs[p].max(1);
        xs[p] = own + n;
    }
}

// The carbons that have a group, and its atoms.
fn add_groups(busy: &mut [u8], groups: &[Mod])
    requires { ((k : ℕ) → get_or busy.old k 0 ≤ 2) × (length groups.now ≤ 18) }
    ensures { Added groups.now busy.old busy.new }
{
    for group in groups.iter().rev() {
        add_at(busy, group.pos as usize, row_atoms(group.row));
    }
}

// The carbons that have a ring's end.
fn set_rings(busy: &mut [u8], rings: &[Ring])
    ensures { SetWhere (ring_on rings.now) 1 busy.old busy.new }
{
    for ring in rings.iter().rev() {
        set_at(busy, ring.end as usize, 1);
        set_at(busy, ring.start as usize, 1);
    }
}

// On an acyl chain C1 has a doubly bonded O: two atoms.
fn set_carbonyl(busy: &mut [u8], acyl: bool)
    ensures { SetWhere (carbonyl_on acyl) 2 busy.old busy.new }
{
    if acyl {
        set_at(busy, 1, 2);
    }
}

// The bonds before any mark, in an array of noughts: a double bond stands before a bridge.
fn plain_bonds<'a>(bonds: &mut [u8], doubles: &'a [DbPos], rings: &'a [Ring])
    requires { Noughts bonds.old }
    ensures { PlainBonds doubles.now rings.now bonds.new }
{
    set_bridges(bonds, rings);
    set_doubles(bonds, doubles);
}

// The bonds with their marks, in an array of noughts that goes to the last carbon.
fn marked_bonds<'a>(bonds: &mut [u8], doubles: &'a [DbPos], rings: &'a [Ring], carbon: u16)
    requires { Noughts bonds.old × (min carbon 255 < length bonds.old) }
    ensures { BondsBy doubles.now rings.now carbon bonds.new }
{
    plain_bonds(bonds, doubles, rings);
    let last = carbon.min(MAX_CARBONS) as usize;
    if rises(doubles) {
        mark_rising(bonds, doubles, last);
        return;
    }
    mark_any(bonds, doubles, last);
}

// The carbons that carry anything beside a bridge, and their atoms, in an array of noughts.
fn busy_carbons<'a>(busy: &mut [u8], acyl: bool, groups: &'a [Mod], rings: &'a [Ring])
    requires noughts { Noughts busy.old }
    requires groups_len_bound { length groups.now ≤ 18 }
    ensures { Busy acyl groups.now rings.now busy.new }
{
    set_rings(busy, rings);
    set_carbonyl(busy, acyl);
    add_groups(busy, groups);
}

// The double bonds and their marks in one pass, as long as each bond is further on than the one before it, as in nearly every name, and on the
// chain; whether all of them are. A double bond further on may be set after the marks: one that comes next stands over a mark that was made
// there.
fn put_rising(bonds: &mut [u8], doubles: &[DbPos], carbon: usize) -> bool
    requires { carbon < length bonds.old }
    ensures { result ≡ true → DoublesPut carbon doubles.now bonds.old bonds.new }
{
    let mut last = 0;
    for bond in doubles {
        if bond.pos <= last {
            return false;
        }
        last = bond.pos;
        let p = bond.pos as usize;
        if carbon < p {
            return false;
        }
        bonds[p] = b'=';
        mark_bond(bonds, carbon, bond.geom, p);
    }
    true
}

// Noughts at every carbon again.
fn clear(bonds: &mut [u8])
    ensures { Noughts bonds.new }
{
    bonds.fill(0);
}

// The bonds of a chain without rings with their marks, in an array of noughts that goes to its last carbon: there is no bridge among them.
pub fn ringless_bonds(x: Shape, part: &Lists, bonds: &mut [u8])
    requires noughts { Noughts bonds.old × (x.carbon < length bonds.old) × (x.carbon ≤ 255) }
    requires part_value { rings_drawn (drawn_of x part.now) ≡ [] }
    ensures { BondsBy (bonds_drawn (drawn_of x part.now)) (rings_drawn (drawn_of x part.now)) x.carbon bonds.new }
{
    let doubles = x.bonds(part);
    let last = x.carbon as usize;
    if put_rising(bonds, doubles, last) {
        return;
    }
    clear(bonds);
    set_doubles(bonds, doubles);
    mark_any(bonds, doubles, last);
}

// The carbons of a chain that are written one by one: from the first drawn one to the last literal one.
#[derive(Clone, Copy)]
pub struct Span {
    pub first: u16,
    pub last: u16,
}

// What is known of each carbon, into two arrays of noughts that go to the last one: the bond after it, and its atoms if it carries anything.
pub fn chain_tokens(x: Shape, part: &Lists, bonds: &mut [u8], busy: &mut [u8]) -> Span
    requires draws_some { DrawsSome (drawn_of x part.now) }
    requires carbon_bound { x.carbon ≤ 255 }
    requires noughts { Noughts bonds.old × (min x.carbon 255 < length bonds.old) }
    requires noughts_2 { Noughts busy.old × (min x.carbon 255 < length busy.old) }
    ensures { TokensOf (drawn_of x part.now) (tokens result.first result.last bonds.new busy.new) }
{
    let rings = x.rings(part);
    marked_bonds(bonds, x.bonds(part), rings, x.carbon);
    busy_carbons(busy, x.acyl, x.groups(part), rings);
    // There is no C0.
    let first = x.first.max(1);
    let last = drawn_chain::literal_end(x, part).min(MAX_CARBONS);
    Span { first, last }
}
