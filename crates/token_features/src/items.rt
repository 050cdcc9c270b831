// What a piece of a segment says that names a feature: a position of a list, or a part between commas. Each function is defined for every byte
// string, position and number of carbons, and adds nothing to a chain yet. 01's sentences stand in specs/features/Features.antt.
ghost use Rattle.std.specs.Prelude.{◌≡◌};
ghost use Rattle.token_features.specs.features.Features.{placed, listed_as, oxygen_count, oxygens_in, item_at, part_of};

use super::features;
use super::features::{Feature, Segment};
use super::naming::feature_of;
use chain_record::Mod;

// A feature at a position.
fn placed_at(feature: Feature, pos: u32, carbon: u16) -> Segment
    ensures { result ≡ placed feature pos carbon }
{
    match feature {
        Feature::Ring(bridge) => features::ring_at(pos, bridge, carbon),
        Feature::Group(row) => Segment::Located(Mod { pos, row }),
        Feature::Other => Segment::Unreadable,
    }
}

// A feature at a position of a list, which has no letter.
pub fn read_listed(s: &[u8], feature: Feature, carbon: u16) -> Segment
    ensures { result ≡ listed_as feature s.now carbon }
{
    let Some(pos) = token_syntax::trimmed_number(s) else {
        return Segment::Unreadable;
    };
    placed_at(feature, pos as u32, carbon)
}

// The oxygen count after an `O`: 1 where nothing follows.
fn oxygen_count(s: &[u8]) -> Segment
    ensures { result ≡ oxygen_count s.now }
{
    let Some(n) = token_syntax::number_or_one(s) else {
        return Segment::Unreadable;
    };
    Segment::Oxygens(n as u32)
}

// An abbreviation that names no feature: `O` and its count.
fn read_oxygens(abbr: &[u8]) -> Segment
    ensures { result ≡ oxygens_in abbr.now }
{
    if abbr.len() == 0 {
        return Segment::Unreadable;
    }
    if abbr[0] != b'O' {
        return Segment::Unreadable;
    }
    oxygen_count(&abbr[1..])
}

// An abbreviation after its position.
fn read_item(abbr: &[u8], pos: u32, carbon: u16) -> Segment
    ensures { result ≡ item_at abbr.now pos carbon }
{
    let feature = feature_of(abbr);
    match feature {
        Feature::Ring(_) => placed_at(feature, pos, carbon),
        Feature::Group(_) => placed_at(feature, pos, carbon),
        Feature::Other => read_oxygens(abbr),
    }
}

// A part between commas: a position, which may be missing, and an abbreviation, which may not.
pub fn read_part(s: &[u8], carbon: u16) -> Segment
    ensures { result ≡ part_of s.now carbon }
{
    let n = scanner::digit_run(s);
    if n == s.len() {
        return Segment::Unreadable;
    }
    let Some(pos) = token_syntax::leading_position(&s[0..n]) else {
        return Segment::Unreadable;
    };
    read_item(&s[n..], pos as u32, carbon)
}
