// The eight class codes, and what each asks: how many tokens, whether a tail, and what the chain of a token is in its template. Every byte
// string and every sn has an answer, that of Template.antt of `template_rules`; an unknown code is one too, which the judge refuses by 20.
#![tactic(auto)]

pub mod class;
mod role;
mod row;

pub use class::class_of;
pub use role::role_of;
pub use row::{fewest, has_tail, most};
