// What the step judge's search is given: the edges that each automaton can take, each as the mask of the variables that
// its update does not mention; the variables that change; and the automata that keep their location.
#![tactic(auto)]

mod bits;
mod edges;

pub use bits::{changed, differs, still};
pub use edges::gather;
