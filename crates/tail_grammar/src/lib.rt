// The check of a tail, the part of a line that the caller gives as text. A tail is counted in atoms, and it is proved that the tails are exactly
// the texts, within 01's limits, that read by themselves. Bytes that are no tail count 0 atoms, which the judge refuses by 23.
#![tactic(auto)]

mod ringdigits;
pub mod tail;
mod tailatom;

pub use tail::tail_atoms;
