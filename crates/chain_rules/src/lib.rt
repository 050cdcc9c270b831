// What is drawn and written of a chain in its place, and what it is refused for, as definitions with the theorem that its text reads as its
// atoms; and what place and prefix alone say, as code. 22 is answered here, the wrong kind of chain for its place.
#![tactic(auto)]

pub mod chain;
mod kind;

pub use chain::Role;
pub use kind::{first_drawn, is_acyl, is_ether_base, wrong_kind};
