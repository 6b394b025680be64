// The reader of action lists and of compositions: from the bytes after `sync=` and `compose=` to words of the table.
// Every function goes through its bytes once, with no recursion, and is total: it has an answer for any bytes.
#![tactic(auto)]

mod compose;
mod list;
mod lists;
mod token;

pub use compose::{Composition, read};
pub use list::{Listed, sync_list};
pub use lists::lists_sound;
