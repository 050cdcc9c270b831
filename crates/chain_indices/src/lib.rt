// The index of each carbon of a chain, and what is counted of its atoms and its variables. The indices are those of the carbons in the drawn
// molecule; what falls past the end of the lent slice is dropped and counted, and the quicker way of `grouped_atoms` asks for room. Nothing is
// refused.
#![tactic(auto)]

pub mod atoms;
mod carried_atoms;
mod grouped_atoms;
pub mod totals;

pub use atoms::{ChainAtoms, number_chain};
pub use carried_atoms::branch_atoms;
pub use grouped_atoms::{number_bare, number_grouped};
pub use totals::{Figures, figures_of};
