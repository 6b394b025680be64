// The merged init and the merged inv of Definition 4: the functions that they are made of, their words, how many nodes
// they have, and how deep they nest. The merged init has the composition's own start conditions too.
#![tactic(auto)]

mod clauses;
mod depth;
mod functions;
mod starts;

pub use clauses::{merged, merged_nodes};
pub use depth::{Depth, is_deeper, merged_deep, starts_deep};
pub use functions::{Functions, functions_of};
pub use starts::{Starts, no_starts, starts_nodes, starts_of};
