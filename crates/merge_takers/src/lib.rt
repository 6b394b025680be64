// The moves of each action, over the words of a table: how many there are, and where the edges stand that each takes.
#![tactic(auto)]

mod gathering;
mod moves;
mod taking;

pub use gathering::{gather, places_at};
