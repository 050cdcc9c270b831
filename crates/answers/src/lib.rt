// The answer to a request, as definition and as struct, and whether a slice is too short. What the answer is, and what both slices hold
// afterwards, is said by specs/answer/Answer.antt. 41 rests on `room`.
#![tactic(auto)]

pub mod answer;
pub mod room;

pub use answer::{Answer, refused, refused_for};
pub use room::{INDEX_ROOM, ROW_ROOM, is_short};
