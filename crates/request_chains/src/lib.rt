// The chains of a request in lent arrays: how many there are at most, and what is known of each beside its lists. What is kept of
// a chain is what is found again. Every place has an answer; past the last stands an empty chain. Nothing is refused.
#![tactic(auto)]

mod chain_count;
pub mod chain_shapes;

pub use chain_count::in_places;
pub use chain_shapes::{Chains, NO_SHAPE, keep_shape, shape_at, shape_in};
