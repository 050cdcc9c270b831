// The segments of a token, `;[8-12cy5;11OH;9oxo];15OH`, read into lent arrays of double bonds, groups and rings. Every byte string has an
// answer: the counts with what the segments add, 11 at the first piece that cannot be read, or 31 after the first segment that puts a count
// over its limit. 01's sentences stand in specs/segment/Segment.antt.
ghost use Rattle.std.specs.Prelude.{◌≤◌, [], length};
ghost use Rattle.chain_record.specs.plain.Chain.{max_bonds, max_groups, max_rings};
ghost use Rattle.chain_record.specs.parsed.Parsed.{Grows, Pushes, Collects, first, gather, groups_as, unbonded_as, all_as, on};
ghost use Rattle.token_segments.specs.segment.Segment.{copies, many_times, with_segment, listed_at, plain_list, listed_feature, listed_segment, comma_parts, modification, segment_at, segments};

use super::ring;
use chain_record::{Counts, DbPos, MAX_BONDS, MAX_GROUPS, MAX_RINGS, Mod, Refusal, Ring};
use token_features::{Feature, Segment};
use token_syntax::Form;

// A group n times.
fn push_copies(group: Mod, n: u32, groups: &mut [Mod; MAX_GROUPS], count: usize) -> usize
    ensures { Grows groups_as (first count groups.old) (first result groups.new) (copies n group) }
{
    let mut left = n;
    let mut so_far = count;
    while left > 0 {
        so_far = chain_record::push_group(groups, so_far, group);
        left -= 1;
    }
    so_far
}

// Groups without a position. The counts are compared before any copy is made.
fn push_repeated(
    row: u8,
    times: u32,
    groups: &mut [Mod; MAX_GROUPS],
    count: usize,
) -> Result<usize, Refusal>
    ensures { Pushes groups_as count groups.old result groups.new (many_times times (record { pos = 0; row = row })) }
{
    if MAX_GROUPS < count {
        return Err(Refusal::OverLimit);
    }
    if MAX_GROUPS - count < (times as usize) {
        return Err(Refusal::OverLimit);
    }
    Ok(push_copies(Mod { pos: 0, row }, times, groups, count))
}

// What a piece of a segment adds.
fn add_segment(
    segment: Segment,
    groups: &mut [Mod; MAX_GROUPS],
    rings: &mut [Ring; MAX_RINGS],
    counts: Counts,
) -> Result<Counts, Refusal>
    ensures { Collects unbonded_as (gather counts [] groups.old rings.old) result [] groups.new rings.new (with_segment segment) }
{
    let mut more = counts;
    match segment {
        Segment::Cycle(ring) => more.rings = chain_record::push_ring(rings, counts.rings, ring),
        Segment::Located(group) => {
            more.groups = chain_record::push_group(groups, counts.groups, group);
        }
        Segment::Repeated { row, times } => {
            more.groups = push_repeated(row, times, groups, counts.groups)?;
        }
        Segment::Oxygens(n) => more.oxygens = n,
        Segment::Unreadable => return Err(Refusal::Unreadable),
    }
    Ok(more)
}

// A feature at one position of a list.
fn parse_plain_position(
    s: &[u8],
    feature: Feature,
    carbon: u16,
    groups: &mut [Mod; MAX_GROUPS],
    rings: &mut [Ring; MAX_RINGS],
    counts: Counts,
) -> Result<Counts, Refusal>
    ensures { Collects (on carbon unbonded_as) (gather counts [] groups.old rings.old) result [] groups.new rings.new (listed_at feature s.now) }
{
    let segment = token_features::read_listed(s, feature, carbon);
    add_segment(segment, groups, rings, counts)
}

// A feature at each position of a list.
fn parse_plain_position_list(
    s: &[u8],
    feature: Feature,
    carbon: u16,
    groups: &mut [Mod; MAX_GROUPS],
    rings: &mut [Ring; MAX_RINGS],
    counts: Counts,
) -> Result<Counts, Refusal>
    ensures { Collects (on carbon unbonded_as) (gather counts [] groups.old rings.old) result [] groups.new rings.new (plain_list feature s.now) }
{
    if s.len() == 0 {
        return Ok(counts);
    }
    let mut t = s;
    let mut so_far = counts;
    loop {
        let n = scanner::find(t, b',');
        so_far = parse_plain_position(&t[0..n], feature, carbon, groups, rings, so_far)?;
        if n == t.len() {
            return Ok(so_far);
        }
        t = &t[n + 1..];
    }
}

// A feature that was named, at each position of a list.
fn parse_listed_feature(
    feature: Feature,
    list: &[u8],
    carbon: u16,
    groups: &mut [Mod; MAX_GROUPS],
    rings: &mut [Ring; MAX_RINGS],
    counts: Counts,
) -> Result<Counts, Refusal>
    ensures { Collects (on carbon unbonded_as) (gather counts [] groups.old rings.old) result [] groups.new rings.new (listed_feature feature list.now) }
{
    match feature {
        Feature::Ring(_) => parse_plain_position_list(list, feature, carbon, groups, rings, counts),
        Feature::Group(_) => parse_plain_position_list(
            list, feature, carbon, groups, rings, counts,
        ),
        Feature::Other => Err(Refusal::Unreadable),
    }
}

// An abbreviation, and what follows its `(`.
fn parse_listed_segment(
    abbr: &[u8],
    s: &[u8],
    carbon: u16,
    groups: &mut [Mod; MAX_GROUPS],
    rings: &mut [Ring; MAX_RINGS],
    counts: Counts,
) -> Result<Counts, Refusal>
    ensures { Collects (on carbon unbonded_as) (gather counts [] groups.old rings.old) result [] groups.new rings.new (listed_segment abbr.now s.now) }
{
    if !token_syntax::ends_in_parenthesis(s) {
        return Err(Refusal::Unreadable);
    }
    let feature = token_features::feature_of(abbr);
    parse_listed_feature(feature, &s[0..s.len() - 1], carbon, groups, rings, counts)
}

// The parts between commas.
fn parse_parts(
    s: &[u8],
    carbon: u16,
    groups: &mut [Mod; MAX_GROUPS],
    rings: &mut [Ring; MAX_RINGS],
    counts: Counts,
) -> Result<Counts, Refusal>
    ensures { Collects (on carbon unbonded_as) (gather counts [] groups.old rings.old) result [] groups.new rings.new (comma_parts s.now) }
{
    let mut t = s;
    let mut so_far = counts;
    loop {
        let n = scanner::find(t, b',');
        let segment = token_features::read_part(&t[0..n], carbon);
        so_far = add_segment(segment, groups, rings, so_far)?;
        if n == t.len() {
            return Ok(so_far);
        }
        t = &t[n + 1..];
    }
}

// A segment without its brackets, in the first of the four forms that it has.
fn parse_modification_segment(
    s: &[u8],
    carbon: u16,
    bonds: &mut [DbPos; MAX_BONDS],
    groups: &mut [Mod; MAX_GROUPS],
    rings: &mut [Ring; MAX_RINGS],
    counts: Counts,
) -> Result<Counts, Refusal>
    ensures { Collects (on carbon all_as) (gather counts bonds.old groups.old rings.old) result bonds.new groups.new rings.new (modification s.now) }
{
    let form = token_syntax::form_of(s);
    match form {
        Form::Ring { dash, cy } => {
            ring::parse_ring_segment(s, dash, cy, carbon, bonds, rings, counts)
        }
        Form::Repeated => {
            let segment = token_features::read_repeated(token_syntax::after_place(s, 0));
            add_segment(segment, groups, rings, counts)
        }
        Form::Listed { open } => {
            let rest = token_syntax::after_place(s, open);
            parse_listed_segment(&s[0..open], rest, carbon, groups, rings, counts)
        }
        Form::Parts => parse_parts(s, carbon, groups, rings, counts),
    }
}

// What stands between two semicolons; the counts are judged once it is read.
fn parse_segment(
    s: &[u8],
    carbon: u16,
    bonds: &mut [DbPos; MAX_BONDS],
    groups: &mut [Mod; MAX_GROUPS],
    rings: &mut [Ring; MAX_RINGS],
    counts: Counts,
) -> Result<Counts, Refusal>
    ensures { Collects (on carbon all_as) (gather counts bonds.old groups.old rings.old) result bonds.new groups.new rings.new (segment_at s.now) }
{
    let text = token_syntax::segment_text(s);
    if text.len() == 0 {
        return Ok(counts);
    }
    let more = parse_modification_segment(text, carbon, bonds, groups, rings, counts)?;
    chain_record::check_counts(more)
}

// All segments, one after the other.
fn read_segments(
    cursor: &[u8],
    carbon: u16,
    bonds: &mut [DbPos; MAX_BONDS],
    groups: &mut [Mod; MAX_GROUPS],
    rings: &mut [Ring; MAX_RINGS],
    counts: Counts,
) -> Result<Counts, Refusal>
    ensures { Collects (on carbon all_as) (gather counts bonds.old groups.old rings.old) result bonds.new groups.new rings.new (segments cursor.now) }
{
    let mut at = 0;
    let mut so_far = counts;
    loop {
        let segment = scanner::next_segment(cursor, at);
        let from = segment.from;
        let to = segment.to;
        so_far = parse_segment(&cursor[from..to], carbon, bonds, groups, rings, so_far)?;
        if to == cursor.len() {
            return Ok(so_far);
        }
        at = segment.next;
    }
}

// All segments of a chain of so many carbons: what follows a token's bond count and its `(..)` list.
pub fn parse_segments(
    cursor: &[u8],
    carbon: u16,
    bonds: &mut [DbPos],
    groups: &mut [Mod],
    rings: &mut [Ring],
    counts: Counts,
) -> Result<Counts, Refusal>
    requires max_bonds_in_bounds { max_bonds ≤ length bonds.old }
    requires max_groups_in_bounds { max_groups ≤ length groups.old }
    requires max_rings_in_bounds { max_rings ≤ length rings.old }
    ensures { Collects (on carbon all_as) (gather counts bonds.old groups.old rings.old) result bonds.new groups.new rings.new (segments cursor.now) }
{
    let Some(bond_room) = bonds.first_chunk_mut::<MAX_BONDS>() else {
        unreachable!()
    };
    let Some(group_room) = groups.first_chunk_mut::<MAX_GROUPS>() else {
        unreachable!()
    };
    let Some(ring_room) = rings.first_chunk_mut::<MAX_RINGS>() else {
        unreachable!()
    };
    read_segments(cursor, carbon, bond_room, group_room, ring_room, counts)
}
