// The lines that have a predicate, `init=P`, `inv=P` and `edge=FROM,ACT,TO,P`: the row that one breaks, or its words
// put into the table that is being read.
#![tactic(auto)]

mod edges;
mod predicates;

pub use edges::edge;
pub use predicates::location;
