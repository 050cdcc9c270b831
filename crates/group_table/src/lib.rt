// The group table of 01 and what an abbreviation means: a row of the table, or a ring of two or three carbons. Every byte string has an answer,
// and a row past the table is blank; nothing is refused here.
#![tactic(auto)]

mod abbreviations;
mod aliases;
pub mod groups;

pub use abbreviations::substituent;
pub use aliases::alias_ring_size;
pub use groups::{HYDROXY, KETO, METHYL, ROW_COUNT, row_at};
