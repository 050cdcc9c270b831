// The labels of the sn: the block `$..$` by atoms, and `swappable(..)`. What is written is what the reading rules show of the sites that are
// given, whose sn have one digit each. Nothing is refused.
#![tactic(auto)]

mod label_block;
mod swappable;

pub use label_block::put_label_block;
pub use swappable::put_swappable;
