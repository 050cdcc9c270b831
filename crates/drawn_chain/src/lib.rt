// A chain as it is drawn in its place: its numbers by value, its lists in a lent struct of arrays, and how far it is drawn as it is written. The
// contracts promise the chain of `chain_rules`, for every count: one past its limit counts as the limit. Nothing is refused here.
#![tactic(auto)]

pub mod drawable;
pub mod fitted;
pub mod reach;
mod rooms;

pub use drawable::{BOND_ROOM, MAX_CHAINS, Shape, counted};
pub use fitted::drawn_as;
pub use reach::{drawn_count, literal_end, remaining};
pub use rooms::{Lists, NO_LISTS, chain_part, empty_lists, find_part};
