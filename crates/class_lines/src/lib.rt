// The line of a class, and how long it is at most. The line, its order of chains and its sites are those that the templates define; no line is
// longer than the bound. Nothing is refused: a slice that is too short is found in `answers`.
#![tactic(auto)]

pub mod lines;
pub mod longest;

pub use lines::{Line, build_line};
pub use longest::{are_slight, line_most, slight_most};
