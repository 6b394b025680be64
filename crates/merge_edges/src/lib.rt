// The merged edges of Definition 4, from the list of their takers: how deep and how large their updates are, and their
// words.
#![tactic(auto)]

mod edge;
mod edges;

pub use edge::{takers_nodes, updates_deep};
pub use edges::all_edges;
