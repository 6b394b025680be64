// The lines that have one number, and the line of a variable's range: the row that one breaks, or its words put into
// the table that is being read.
#![tactic(auto)]

mod number;

pub use number::{automata, counted, edges, variable};
