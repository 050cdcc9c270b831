// The head of a token, `iso-O-18:1(9Z)`: branch word, prefix, carbons, and lists of double bonds, which a ring has too. Every byte string has
// an answer, the one that 01's sentences give, with the double bonds in a lent array. Refused are 11, what cannot be read, and 31, over 255
// carbons.
#![tactic(auto)]

pub mod opening;
pub mod positions;

pub use opening::{Branch, Start, parse_carbons, read_opening};
pub use positions::{parse_position_list, parse_ring_bonds};
