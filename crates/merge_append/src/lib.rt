// Words at the end of the merged sheet's table: words of the model's table, and the nodes that merged predicates have
// of their own.
#![tactic(auto)]

mod append;
mod words;

pub use append::{Filling, narrow};
pub use words::{
    add, all_node, eq_node, imp_node, new_node, number_node, old_node, pointer, upward,
};
