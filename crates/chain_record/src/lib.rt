// What one token says of a chain: plain types, and the record with its arrays. A push keeps the list with one element more. 31 is answered
// here, where a count is over its limit.
#![tactic(auto)]

pub mod parsed;
pub mod plain;
pub mod refusal;

pub use parsed::{Counts, ParsedChain, check_counts, push_bond, push_group, push_ring};
pub use plain::{
    Bridge, ChainPrefix, DbPos, GROUP_ROOM, Geometry, MAX_BONDS, MAX_CARBONS, MAX_GROUPS,
    MAX_RINGS, Mod, Ring,
};
pub use refusal::Refusal;
