// What stands around the lines of the output: the titles, what is written of the header, the head of a row, and how often each answer was met.
// The bytes are those of the definitions, and every answer is counted once for each row. Writers: past the end of the output they drop and
// count. What is written of a 42 is said here; nothing else is refused.
#![tactic(auto)]

pub mod beginning;
pub mod row_heads;
pub mod tally;

pub use beginning::{Answered, Batch, Lined, Stage, answer_header, put_titles, put_unreadable};
pub use row_heads::{put_decimal, put_head, put_number_cell};
pub use tally::{Counts, count_in, put_count_lines};
