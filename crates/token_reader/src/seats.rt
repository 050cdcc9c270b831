// Seats for the double bonds that a token declares without a position. Only whether each finds one matters: where they sit is not kept.
// The search goes by an array of used positions, by carbon, so its work is bounded by the carbons and not by the number declared.
ghost use Rattle.std.specs.Prelude.{◌≡◌, ◌≤◌, ◌<◌, ◌+◌, ◌*◌, ◌-◌, true, length};
ghost use Rattle.chain_record.specs.plain.Chain.{max_carbons};
ghost use Rattle.token_reader.specs.seats.Seats.{used_in, free, first_free, seat_from, SeatIs, seats_from, first_start, positions, NoMarks, Marks, MarksAll, Seated};

use chain_record::{DbPos, MAX_CARBONS};

// One place for each position from 0 to MAX_CARBONS.
const PLACES: usize = 256;

// Whether neither p nor a neighbour is used.
#[tactic(auto, unfolding(crate::specs::seats::Seats::free))]
fn is_free(used: &[bool], p: u16) -> bool
    requires { (2 ≤ p) × (p + 1 < length used.now) }
    ensures { result ≡ free (used_in used.now) p }
{
    let at = p as usize;
    if used[at] || used[at - 1] {
        return false;
    }
    !used[at + 1]
}

// The first free seat from `from` up to, not including, `to`.
fn first_free(used: &[bool], from: u16, to: u16) -> Option<u16>
    requires { (2 ≤ from) × (to < length used.now) }
    ensures { SeatIs (used_in used.now) from to (first_free (used_in used.now) (to - from) from) result }
{
    for p in from..to {
        if is_free(used, p) {
            return Some(p);
        }
    }
    None
}

// The first free seat upward from `start`, and past the last seat from 2 on again.
fn seat_from(used: &[bool], carbon: u16, start: u16) -> Option<u16>
    requires { (2 ≤ start) × (carbon < length used.now) }
    ensures { SeatIs (used_in used.now) 2 carbon (seat_from carbon (used_in used.now) start) result }
{
    if carbon <= start {
        return first_free(used, 2, carbon);
    }
    match first_free(used, start, carbon) {
        Some(p) => Some(p),
        None => first_free(used, 2, start),
    }
}

// Nothing used yet.
fn no_marks() -> [bool; PLACES]
    ensures { NoMarks result }
{
    [false; PLACES]
}

// Marks a position as used, if it has a place.
fn mark(used: &mut [bool], p: u32)
    ensures { Marks used.old p used.new }
{
    let at = p as usize;
    if at < used.len() {
        used[at] = true;
    }
}

// Whether so many bonds find a seat, one after the other.
fn take_seats(used: &mut [bool], carbon: u16, start: u16, missing: u64) -> bool
    requires { (2 ≤ start) × (4 ≤ carbon) × (carbon ≤ max_carbons) × (carbon < length used.old) }
    ensures { result ≡ seats_from carbon (used_in used.old) start missing }
{
    let mut from = start;
    for _ in 0..missing {
        let Some(p) = seat_from(used, carbon, from) else {
            return false;
        };
        mark(used, p as u32);
        from = p + 3;
    }
    true
}

// Marks the positions of the listed double bonds.
fn mark_listed(used: &mut [bool], listed: &[DbPos])
    ensures { MarksAll used.old (positions listed.now) used.new }
{
    for bond in listed {
        mark(used, bond.pos);
    }
}

// Where the first search starts.
#[tactic(auto, unfolding(crate::specs::seats::Seats::first_start))]
fn first_start(carbon: u16) -> u16
    ensures { result ≡ first_start carbon }
{
    carbon.saturating_sub(1).min(9).max(2)
}

// Whether no position is listed and the seats 9, 12, 15 and so on are enough: nothing is used there, so the search needs no array.
fn seats_in_row(carbon: u16, listed: &[DbPos], missing: u64) -> bool
    ensures { result ≡ true → (length listed.now ≡ 0) × (6 + 3 * missing < carbon) }
{
    listed.is_empty() && missing <= MAX_CARBONS as u64 && 6 + 3 * missing < carbon as u64
}

// Whether each of the missing bonds finds a seat beside the listed double bonds.
pub fn placeholder_positions(carbon: u16, listed: &[DbPos], missing: u64) -> bool
    requires { carbon ≤ max_carbons }
    ensures { Seated carbon (positions listed.now) missing result }
{
    if missing == 0 {
        return true;
    }
    if carbon < 4 {
        return false;
    }
    if seats_in_row(carbon, listed, missing) {
        return true;
    }
    let mut used = no_marks();
    mark_listed(&mut used, listed);
    let start = first_start(carbon);
    take_seats(&mut used, carbon, start, missing)
}
