// Numbers in a text: one spelling each, and in a range.
#![tactic(auto)]

mod number;

pub use number::{integer, natural};
