// The segments of a token, read into lent arrays of double bonds, groups and rings. The answer is the chain that the definitions give. Refused
// are 11 at the first piece that cannot be read, and 31 after the first segment that puts a count over its limit.
#![tactic(auto)]

mod ring;
pub mod segment;

pub use segment::parse_segments;
