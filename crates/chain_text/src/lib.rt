// The text of a chain, written at a place of a lent slice: for any chain, with or without room, so that it measures too; and a quicker way for
// chains whose groups stand in the order of their carbons, which asks for room. Both promise `show` of the pieces of the chain drawn.
// Nothing is refused.
#![tactic(auto)]

pub mod fragment;
mod grouped_text;

pub use fragment::build_chain_segment;
pub use grouped_text::{build_bare, build_grouped};
