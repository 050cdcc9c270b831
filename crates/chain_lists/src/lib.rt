// What goes by rising sn and not by the order of the text: the chains, their sites, their lists and their indices. Each is the list that the
// templates define, made from what is noted of the chains. Nothing is refused.
#![tactic(auto)]

pub mod indices;
pub mod listing;
pub mod rising;
pub mod sn_sites;

pub use indices::write_indices;
pub use listing::{Listed, Lists, lists_by_sn};
pub use rising::{Rising, by_sn};
pub use sn_sites::{Sites, sites_by_sn};
