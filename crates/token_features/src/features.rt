// What a piece of a segment says: a ring, a group, groups without a position, an oxygen count, or nothing that can be read. The rings are
// read here, what an abbreviation names in `naming`, and the other pieces in `items`. 01's sentences stand in specs/features/Features.antt.
ghost use Rattle.std.specs.Prelude.{◌≡◌};
ghost use Rattle.token_features.specs.features.Features.{ring_of, Span, ring_at};

use chain_record::{Bridge, Mod, Ring};

// The answer of a segment's piece.
#[derive(Clone, Copy)]
pub enum Segment {
    // a ring: its two ends and its bridge
    Cycle(Ring),
    // a group at its position, 0 where it has none
    Located(Mod),
    // a row of the group table, so many times without a position
    Repeated { row: u8, times: u32 },
    // an oxygen count, which draws nothing
    Oxygens(u32),
    Unreadable,
}

// What an abbreviation names.
#[derive(Clone, Copy)]
pub enum Feature {
    // an alias ring, by its bridge
    Ring(Bridge),
    // a row of the group table
    Group(u8),
    Other,
}

// A ring by its numbers. Its end is compared first: after that the span fits.
pub fn ring_of(start: u64, end: u64, size: u64, carbon: u16) -> Segment
    ensures { result ≡ ring_of start end size carbon }
{
    if end < start {
        return Segment::Unreadable;
    }
    if (carbon as u64) < end {
        return Segment::Unreadable;
    }
    if end - start + 1 != size {
        return Segment::Unreadable;
    }
    Segment::Cycle(Ring {
        start: start as u16,
        end: end as u16,
        bridge: Bridge::Carbocycle,
    })
}

// How many carbons an alias ring spans.
fn span_of(bridge: Bridge) -> u64
    ensures { Span bridge result }
{
    match bridge {
        Bridge::Epoxide => 2,
        Bridge::Carbocycle => 3,
    }
}

// An alias ring from a start on. Its end is found in 64 bits, where no start overflows.
pub fn ring_at(start: u32, bridge: Bridge, carbon: u16) -> Segment
    ensures { result ≡ ring_at start bridge carbon }
{
    if start == 0 {
        return Segment::Unreadable;
    }
    let last = (start as u64) + span_of(bridge) - 1;
    if (carbon as u64) < last {
        return Segment::Unreadable;
    }
    Segment::Cycle(Ring {
        start: start as u16,
        end: last as u16,
        bridge,
    })
}
