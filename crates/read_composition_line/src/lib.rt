// The lines `sync=LIST` and `compose=C`: the row that one breaks, or its words put into the table that is being read.
#![tactic(auto)]

mod set;
mod tree;

pub use set::sync;
pub use tree::composition;
