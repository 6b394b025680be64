// The P after each `ini` of a composition: the rows that they break, all together, and their words. A P is judged and
// read as any other; here is what is said of several.
#![tactic(auto)]

mod judging;
mod parts;
mod words;

pub use judging::{Judged, judge};
pub use words::append;
