// The text of a chain whose double bonds and groups all have a position, the groups in the order of their carbons, and which has no ring: the
// carbons are written in runs, each up to the next group.
ghost use Rattle.std.specs.Prelude.{◌≡◌, ℕ, ◌+◌, ◌-◌, ◌*◌, ◌≤◌, ◌<◌, length, drop};
ghost use Rattle.writer.specs.emit.Text.{Written};
ghost use Rattle.drawn_chain.specs.drawable.Drawn.{drawn_of, bonds_drawn, rings_drawn};
ghost use Rattle.carbons.specs.Tokens.{Rising, Grouped};
ghost use Rattle.carbons.specs.ByCarbon.{BondsBy};
ghost use Rattle.chain_pieces.specs.runs.Links.{links_text};
ghost use Rattle.chain_text.specs.fragment.Segment.{DrawsRead, Segment};
ghost use Rattle.chain_text.specs.grouped_text.Text.{stop_of, next_text, rest_text};

use chain_record::{DbPos, Mod};
use drawn_chain::{Lists, Shape};

// The carbon of the group at a place; past the last group the last carbon.
fn stop(groups: &[Mod], i: usize, last: usize) -> usize
    ensures { result ≡ stop_of (drop i groups.now) last }
{
    if i < groups.len() {
        return groups[i].pos as usize;
    }
    last
}

// The group at a place; past the last nothing.
fn put_nth(out: &mut [u8], at: usize, groups: &[Mod], i: usize) -> usize
    ensures { Written out.old at (next_text (drop i groups.now)) out.new result }
{
    if i < groups.len() {
        return chain_pieces::put_group(out, at, groups[i].row);
    }
    at
}

// All carbons from C k to the last, in parts: those before a double bond, which have empty bonds before them, and the three at it; a double bond
// off the chain counts as one after its last carbon. What is written is the same wherever they are parted.
fn put_doubles<'a>(
    out: &mut [u8],
    at: usize,
    bonds: &'a [u8],
    doubles: &'a [DbPos],
    k: usize,
    last: usize,
) -> usize
    requires { (1 ≤ k) × (k ≤ last + 1) × (last ≤ 255) × (last < length bonds.now) × (at + (last + 1 - k) * 2 ≤ length out.old) }
    ensures { Written out.old at (links_text bonds.now k (last + 1 - k)) out.new result }
{
    let mut p = at;
    let mut j = k;
    for double in doubles {
        let c = (double.pos as usize).min(last + 1);
        if j < c {
            p = chain_pieces::put_span(out, p, bonds, j, c - 1);
            j = c;
        }
        let r = chain_pieces::put_near(out, p, bonds, j, last);
        p = r.at;
        j = r.carbon;
    }
    chain_pieces::put_span(out, p, bonds, j, last)
}

// The carbons from C k on to the last, and the groups on them and on the carbon before. The last run is written by a turn of its own, and not
// after the loop: so the code of a run stands in one place.
fn put_stretches<'a>(
    out: &mut [u8],
    at: usize,
    bonds: &'a [u8],
    groups: &'a [Mod],
    k: usize,
    last: usize,
) -> usize
    requires rising { Rising (k - 1) last groups.now }
    requires le_k { (1 ≤ k) × (k ≤ last + 1) × (last ≤ 255) × (last < length bonds.now) }
    requires groups_in_bounds { at + ((last + 1 - k) * 2 + 14 * length groups.now) ≤ length out.old }
    ensures { Written out.old at (rest_text bonds.now k last groups.now) out.new result }
{
    let mut p = at;
    let mut j = k;
    for i in 0..groups.len() + 1 {
        let to = stop(groups, i, last);
        p = chain_pieces::put_through(out, p, bonds, j, to);
        p = put_nth(out, p, groups, i);
        j = to + 1;
    }
    p
}

// The text of such a chain, where there is room for it with a bond before each carbon.
pub fn build_grouped<'a>(
    out: &mut [u8],
    at: usize,
    x: Shape,
    part: &'a Lists,
    bonds: &'a [u8],
) -> usize
    requires draws_read { DrawsRead (drawn_of x part.now) }
    requires grouped { Grouped (drawn_of x part.now) }
    requires bonds_by { BondsBy (bonds_drawn (drawn_of x part.now)) (rings_drawn (drawn_of x part.now)) x.carbon bonds.now }
    requires carbon_in_bounds { at + (x.carbon * 2 + 260) ≤ length out.old }
    ensures { (l : ℕ) → Segment (drawn_of x part.now) l out.old at out.new result }
{
    let k = x.first as usize;
    let last = x.carbon as usize;
    let p = chain_pieces::put_carbon(out, at, bonds[k - 1]);
    let q = chain_pieces::put_carbonyl(out, p, x.acyl, x.first);
    if x.group_count == 0 {
        return put_doubles(out, q, bonds, x.bonds(part), k + 1, last);
    }
    put_stretches(out, q, bonds, x.groups(part), k + 1, last)
}

// The text of such a chain that carries nothing, where there is room for it: carbons between empty bonds, and the O of an acyl C1.
pub fn build_bare(out: &mut [u8], at: usize, x: Shape, part: &Lists) -> usize
    requires draws_read { DrawsRead (drawn_of x part.now) }
    requires grouped { Grouped (drawn_of x part.now) }
    requires bond_count_value { (x.bond_count ≡ 0) × (x.group_count ≡ 0) }
    requires carbon_in_bounds { at + (x.carbon * 2 + 260) ≤ length out.old }
    ensures { (l : ℕ) → Segment (drawn_of x part.now) l out.old at out.new result }
{
    let p = writer::put(out, at, b'C');
    let from = chain_pieces::put_carbonyl(out, p, x.acyl, x.first);
    chain_pieces::put_carbons(out, from, (x.carbon - x.first) as usize)
}
