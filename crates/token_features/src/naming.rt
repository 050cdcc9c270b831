// What an abbreviation names: a feature, or a group that stands so many times without a position. Each function is defined for every byte
// string. 01's sentences stand in specs/features/Features.antt.
ghost use Rattle.std.specs.Prelude.{◌≡◌};
ghost use Rattle.token_features.specs.features.Features.{bridge_of, feature_of, repeated_of};

use super::features::{Feature, Segment};
use chain_record::Bridge;

// A ring of two carbons is bridged by an oxygen.
fn bridge_of(size: u16) -> Bridge
    ensures { result ≡ bridge_of size }
{
    if size == 2 {
        return Bridge::Epoxide;
    }
    Bridge::Carbocycle
}

// What an abbreviation names. No alias ring is a group as well, so the group, which nearly all name, is asked for first.
pub fn feature_of(abbr: &[u8]) -> Feature
    ensures { result ≡ feature_of abbr.now }
{
    if let Some(row) = group_table::substituent(abbr) {
        return Feature::Group(row);
    }
    let Some(size) = group_table::alias_ring_size(abbr) else {
        return Feature::Other;
    };
    let bridge = bridge_of(size);
    Feature::Ring(bridge)
}

// What follows the `(` of (abbr)n.
pub fn read_repeated(s: &[u8]) -> Segment
    ensures { result ≡ repeated_of s.now }
{
    let close = scanner::find(s, b')');
    if close == s.len() {
        return Segment::Unreadable;
    }
    let Some(row) = group_table::substituent(&s[0..close]) else {
        return Segment::Unreadable;
    };
    let Some(n) = token_syntax::number_or_one(&s[close + 1..]) else {
        return Segment::Unreadable;
    };
    Segment::Repeated {
        row,
        times: n as u32,
    }
}
