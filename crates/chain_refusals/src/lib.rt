// What a chain in its place is refused for: 32, a feature off the chain; 33, two that clash; 12 to 15, what cannot be drawn. Each answer is
// a refusal, if one is due, with the number that Refusals.antt of `chain_rules` gives, in the order in which 01 asks.
#![tactic(auto)]

mod clash;
mod offchain;
mod pins;
mod refusals;
mod undrawn;

pub use refusals::place_refusal;
pub use undrawn::draw_refusal;
