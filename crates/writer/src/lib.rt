// Writing into a lent slice at a place: a byte, a number's digits, texts, indices. What falls past the end is dropped and the place counts on,
// so that the same functions measure on an empty slice and write on a real one. `Written` of specs/store/Text.antt says what stands there
// afterwards. Nothing is refused; only `index_runs` asks for numbers that stay below 2^16, and its `fill` for room.
#![tactic(auto)]

pub mod emit;
mod figures;
pub mod index_runs;
pub mod store;

pub use emit::{copy_indices, put_all, put_same};
pub use figures::{put_many, put_number};
pub use index_runs::{FIRST_ROOM, fill, in_room, put_ramp, to_index};
pub use store::put;
