// The P after each `ini` among the tokens of a composition: where the next one begins, and where it ends. Nothing is
// judged here: a P that is none ends where its tokens call for no more, or with the bytes.
#![tactic(auto)]

mod calls;
mod places;

pub use places::{after, next};
