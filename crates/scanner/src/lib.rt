// Looking into lent bytes: places, the part between spaces, digits, numbers, and a reader that goes from part to part. Each promises the very
// place, part or number that its definition gives, for every byte string of every length. Nothing is refused: a number that cannot be read is
// an answer.
#![tactic(auto)]

mod digits;
pub mod part;
pub mod reader;
pub mod scan;
pub mod spaces;

pub use digits::{digit_run, is_digit};
pub use part::{find, same, starts_with};
pub use reader::next_segment;
pub use scan::{read_digits, read_number};
pub use spaces::trim;
