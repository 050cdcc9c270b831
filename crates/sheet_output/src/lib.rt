// A row of the output, written: its head, the line, and the indices of its chains. The bytes are those of the definitions. Writers: past the
// end of the output they drop and count. Nothing is refused; the table of digits that saves divisions has to be filled.
#![tactic(auto)]

mod carbon_lists;
mod digit_pairs;
pub mod rows;

pub use digit_pairs::{PAIRS, fill_pairs};
pub use rows::{put_rest, put_row_by};
