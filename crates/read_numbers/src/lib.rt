// The numbers of a line: one number that counts something or is the format's, and the two ends of a variable's range.
#![tactic(auto)]

mod number;
mod range;

pub use number::{few_edges, one_number};
pub use range::two_numbers;
