// Tokens: which bytes of one are judged as a number, and row 3 over all tokens of a predicate or a composition.
#![tactic(auto)]

mod numbers;
mod tokens;

pub use numbers::numbers_sound;
pub use tokens::{Shape, numeral};
