// The parts of a line after its text, one by one: names of variables, repeat marks, site lists, sums, and what stands between them. What is
// written is what the reading rules show. Writers: past the end of the slice they drop and count; atoms and variables have to stay below 2^32,
// and an sn has one digit. Nothing is refused.
#![tactic(auto)]

mod marks;
pub mod shown;
pub mod sites;
mod sums;
mod variable;

pub use marks::put_marks;
pub use shown::{
    MAX_SITES, Site, put_block_lead, put_blocks_end, put_label, put_part_lead, put_parting,
};
pub use sites::put_sites;
pub use sums::put_sum;
