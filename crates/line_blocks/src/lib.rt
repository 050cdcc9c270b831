// All that a line has after its text, for all its chains: labels, marks, site lists, sums. The bytes are those that the reading rules show of
// what is noted of the chains. Nothing is refused: past the end of the slice is dropped and counted.
#![tactic(auto)]

pub mod blocks;
pub mod chain_marks;
pub mod chain_sites;

pub use blocks::put_notes;
