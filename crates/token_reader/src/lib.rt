// The token reader: one token, as lent bytes, to a chain, with the seats of its missing double bonds. Every byte string of every length has the
// answer that specs/token/Token.antt defines: the chain in lent arrays, 31 for a limit, or 11 for what is unreadable.
#![tactic(auto)]

mod seats;
pub mod token;

pub use token::{ReadChain, parse_token};
