// What a piece of a segment says: a ring, a group, groups without a position, an oxygen count, or nothing that can be read. Each is defined for
// every byte string, position and number of carbons, and adds nothing to a chain yet. Nothing is refused: what cannot be read is an answer.
#![tactic(auto)]

pub mod features;
mod items;
mod naming;

pub use features::{Feature, Segment, ring_of};
pub use items::{read_listed, read_part};
pub use naming::{feature_of, read_repeated};
