// The composition tree as it stands in the table: a count of nodes, then the nodes in prefix order. `par` is 0; `syn`
// is 1 and then its set in two words; leaf K is 2 + K. An `ini` is a `syn` whose set is empty: its P stands behind the
// tree, and only the check asks how many there are. Every function is total: on words that are no tree it says so, or
// stops. A node's set stays two numbers: the definitions (`set_of low high`, `node_at`) have it as the table's two
// words.
#![tactic(auto)]

mod checked;
mod members;
mod nodes;
mod sets;

pub use checked::{TreeEnd, check};
pub use members::{in_set, own};
pub use nodes::{Found, node_at, skip};
pub use sets::{in_word, in_words, set_of, set_sound, single};
