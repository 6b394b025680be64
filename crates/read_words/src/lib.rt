// The words that the tokens of a predicate spell, as codes: the words of nodes.
#![tactic(auto)]

mod codes;
mod reading;

pub use codes::biased;
pub use reading::{WordsError, read};
