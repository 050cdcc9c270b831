// Lists of double bonds, `9Z,12E`: the `(..)` list after a chain's bond count, and the list of a ring. Every byte string has an answer; an
// unreadable list is refused by 11, and how many bonds a chain may have is judged by their count afterwards. 01's sentences stand in
// specs/positions/Positions.antt.
ghost use Rattle.std.specs.Prelude.{◌≡◌, ◌≤◌, length};
ghost use Rattle.chain_record.specs.plain.Chain.{max_bonds};
ghost use Rattle.chain_record.specs.parsed.Parsed.{Pushes, bonds_as};
ghost use Rattle.token_head.specs.positions.Positions.{geometry_of, numbered, position_of, bond_list, ring_position, ring_bond_list};

use chain_record::{DbPos, Geometry, Refusal};

// What the last letter of a position states.
fn geometry_of(b: u8) -> Geometry
    ensures { result ≡ geometry_of b }
{
    if b == b'Z' {
        return Geometry::Cis;
    }
    if b == b'z' {
        return Geometry::Cis;
    }
    if b == b'E' {
        return Geometry::Trans;
    }
    if b == b'e' {
        return Geometry::Trans;
    }
    Geometry::Unstated
}

// The number of a position whose geometry is known.
fn numbered_position(s: &[u8], geom: Geometry) -> Option<DbPos>
    ensures { result ≡ numbered geom s.now }
{
    let Some(n) = scanner::read_number(s, 4294967295) else {
        return None;
    };
    Some(DbPos {
        pos: n as u32,
        geom,
    })
}

// A double bond's position: trimmed, with at most one letter at its end.
fn read_position(s: &[u8]) -> Option<DbPos>
    ensures { result ≡ position_of s.now }
{
    let t = scanner::trim(s);
    if t.len() == 0 {
        return None;
    }
    let n = t.len() - 1;
    let g = geometry_of(t[n]);
    match g {
        Geometry::Unstated => numbered_position(t, g),
        Geometry::Cis => numbered_position(&t[0..n], g),
        Geometry::Trans => numbered_position(&t[0..n], g),
    }
}

// A position from the carbon `start` up to, not including, the carbon `end`.
fn read_ring_position(s: &[u8], start: u64, end: u64) -> Option<DbPos>
    ensures { result ≡ ring_position start end s.now }
{
    let bond = read_position(s)?;
    let pos = bond.pos as u64;
    if pos < start {
        return None;
    }
    if end <= pos {
        return None;
    }
    Some(bond)
}

// The double bonds that the list of a ring from `start` to `end` gives, after `count` others.
pub fn parse_ring_bonds(
    s: &[u8],
    start: u64,
    end: u64,
    bonds: &mut [DbPos],
    count: usize,
) -> Result<usize, Refusal>
    requires { max_bonds ≤ length bonds.old }
    ensures { Pushes bonds_as count bonds.old result bonds.new (ring_bond_list start end s.now) }
{
    if s.len() == 0 {
        return Ok(count);
    }
    let mut t = s;
    let mut so_far = count;
    loop {
        let n = scanner::find(t, b',');
        let Some(bond) = read_ring_position(&t[0..n], start, end) else {
            return Err(Refusal::Unreadable);
        };
        so_far = chain_record::push_bond(bonds, so_far, bond);
        if n == t.len() {
            return Ok(so_far);
        }
        t = &t[n + 1..];
    }
}

// The double bonds of the `(..)` list: every number that can be read is below 4,294,967,296, so none is out of range.
pub fn parse_position_list(s: &[u8], bonds: &mut [DbPos], count: usize) -> Result<usize, Refusal>
    requires { max_bonds ≤ length bonds.old }
    ensures { Pushes bonds_as count bonds.old result bonds.new (bond_list s.now) }
{
    parse_ring_bonds(s, 0, 4294967296, bonds, count)
}
