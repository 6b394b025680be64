// The merged edges of an action (Definition 4): which automata take one together, and with which of their edges. First
// a plan of the tree, which counts the moves of each subtree; then the k-th move, found by going down the tree.
#![tactic(auto)]

mod capping;
mod picking;
mod planning;

pub use picking::pick;
pub use planning::{Planned, plan};
