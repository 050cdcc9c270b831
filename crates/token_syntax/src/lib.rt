// How a segment of a token is written: its text without brackets, the parts of a list, its numbers, and which of 01's four forms it has. Each
// promises what the sentence of 01 beside its definition says, for every byte string. Nothing is refused: a number that cannot be read is an
// answer.
#![tactic(auto)]

mod brackets;
pub mod form;
mod numbers;
mod padded;
mod split;

pub use brackets::segment_text;
pub use form::{Form, after_place, ends_in_parenthesis, form_of};
pub use numbers::{leading_position, number_or_one, ring_count};
pub use padded::trimmed_number;
pub use split::position_count;
