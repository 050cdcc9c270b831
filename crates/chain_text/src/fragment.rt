// The text of a chain, written at a place of a lent slice: its carbons, labels and groups by the crates below. The groups and rings are gone
// through only at carbons that carry one, and the carbons between them are written in runs. On an empty slice the same functions measure.
ghost use Rattle.std.specs.Prelude.{◌++◌, suc, ◌-◌, ◌≤◌, ◌<◌, length};
ghost use Rattle.writer.specs.emit.Text.{Written};
ghost use Rattle.drawn_chain.specs.drawable.Drawn.{groups_drawn, rings_drawn, drawn_of};
ghost use Rattle.carbons.specs.Tokens.{tokens, TokensOf};
ghost use Rattle.carbons.specs.ByCarbon.{Busy};
ghost use Rattle.chain_pieces.specs.backbone.Text.{carbon_text, bridge_text};
ghost use Rattle.chain_text.specs.fragment.Text.{features_text, carbons_text};
ghost use Rattle.chain_text.specs.fragment.Segment.{DrawsRead, Segment};

use drawn_chain::{Lists, Shape};

// What follows the C of carbon k: its labels, its carbonyl and its groups.
fn put_features(out: &mut [u8], at: usize, x: Shape, part: &Lists, k: u16, label: u8) -> usize
    requires { label ≤ 247 }
    ensures { Written out.old at (features_text x.acyl (groups_drawn (drawn_of x part.now)) (rings_drawn (drawn_of x part.now)) label k) out.new result }
{
    let p = chain_pieces::put_labels(out, at, x.rings(part), k, label);
    let q = chain_pieces::put_carbonyl(out, p, x.acyl, k);
    chain_pieces::put_groups(out, q, x.groups(part), k as u32)
}

// A carbon with what it carries.
fn put_busy(
    out: &mut [u8],
    at: usize,
    x: Shape,
    part: &Lists,
    k: u16,
    label: u8,
    before: u8,
    bond: u8,
) -> usize
    requires { label ≤ 247 }
    ensures { Written out.old at (carbon_text before ++ (features_text x.acyl (groups_drawn (drawn_of x part.now)) (rings_drawn (drawn_of x part.now)) label k ++ bridge_text bond)) out.new result }
{
    let p = chain_pieces::put_carbon(out, at, before);
    let q = put_features(out, p, x, part, k, label);
    chain_pieces::put_bridge(out, q, bond)
}

// The carbons from the first drawn one to the last literal one, those that carry nothing in runs: the bonds by carbon and whether a carbon is
// busy are lent. The step varies, so that it is no range that is gone through.
fn assemble_range<'a>(
    out: &mut [u8],
    at: usize,
    x: Shape,
    part: &'a Lists,
    first: u16,
    last: u16,
    bonds: &'a [u8],
    busy: &'a [u8],
    label: u8,
) -> usize
    requires { (1 ≤ first) × (last ≤ 255) × (last < length bonds.now) × (last < length busy.now) × Busy x.acyl (groups_drawn (drawn_of x part.now)) (rings_drawn (drawn_of x part.now)) busy.now × (label ≤ 247) }
    ensures { Written out.old at (carbons_text x.acyl bonds.now (groups_drawn (drawn_of x part.now)) (rings_drawn (drawn_of x part.now)) label first (suc last - first)) out.new result }
{
    let mut p = at;
    let mut k = first as usize;
    let end = last as usize;
    while k <= end {
        if busy[k] == 0 {
            let r = chain_pieces::put_run(out, p, bonds, busy, k, end);
            p = r.at;
            k = r.carbon;
            continue;
        }
        p = put_busy(out, p, x, part, k as u16, label, bonds[k - 1], bonds[k]);
        k += 1;
    }
    p
}

// The text of a chain, with ring labels from the label given on: the literal carbons, the flexible tail and the groups without a position.
// What each carbon has was looked up before, and is lent. The label leaves room for the labels of eight rings.
pub fn build_chain_segment<'a>(
    out: &mut [u8],
    at: usize,
    x: Shape,
    part: &'a Lists,
    first: u16,
    last: u16,
    bonds: &'a [u8],
    busy: &'a [u8],
    label: u8,
) -> usize
    requires draws_read { DrawsRead (drawn_of x part.now) }
    requires label_bound { label ≤ 247 }
    requires tokens_of { TokensOf (drawn_of x part.now) (tokens first last bonds.now busy.now) }
    ensures { Segment (drawn_of x part.now) label out.old at out.new result }
{
    let end = last as usize;
    let bond = bonds[end];
    let p = assemble_range(out, at, x, part, first, last, bonds, busy, label);
    let q = chain_pieces::put_flexible(out, p, bond, x.unlocated);
    chain_pieces::put_floats(out, q, x.floats(part))
}
