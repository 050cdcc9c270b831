// The pieces of a chain's text, each written at a place of a lent slice: ring labels, groups, the carbons with the flexible tail, and runs of
// carbons that carry nothing. What stands there is `show` of the pieces that the reading rules read. Nothing is refused: what falls past the
// end is dropped and counted; but a run, which is written four carbons at a time, asks for bonds that reach its last carbon and mostly for room.
#![tactic(auto)]

pub mod backbone;
pub mod branches;
mod four_bytes;
mod labels;
pub mod runs;

pub use backbone::{put_bridge, put_carbon, put_flexible};
pub use branches::{put_carbonyl, put_floats, put_group, put_groups, put_rows};
pub use four_bytes::word;
pub use labels::put_labels;
pub use runs::{put_carbons, put_near, put_run, put_span, put_through};
