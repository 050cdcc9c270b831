// A chain laid down in its place: text, indices and the rows of its floating groups in three lent slices, and what is noted of it in a lent
// array. Both promise what the definitions draw there. Nothing is refused: past the end of a slice is dropped and counted.
#![tactic(auto)]

pub mod chain_notes;
pub mod chain_strand;

pub use chain_notes::{Placed, note, nowhere, placed_at};
pub use chain_strand::{Strand, head_count, put_strand};
