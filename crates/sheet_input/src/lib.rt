// A sheet as it comes in: what is left of a block, the header, the cells of a row, and the request that a row makes. Every byte string has the
// answer that the definitions give; an unreadable header has no plan and an unreadable row asks nothing: both are 42.
#![tactic(auto)]

mod cells;
mod cellwords;
pub mod cutting;
pub mod header;
mod remnant;
pub mod sheet;

pub use cells::{cell_of, cell_under};
pub use cutting::{STARTS, cut, cut_line};
pub use header::{COLUMNS, Column, Plan, plan_of};
pub use remnant::keep;
pub use sheet::read_cut;
