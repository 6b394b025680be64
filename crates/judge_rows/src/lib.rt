// Rows 20 to 24 of a call, over the words of a table and its layout; and the state that a call's lists make. What the
// rules say of a state is above.
#![tactic(auto)]

mod call;
mod fill;
mod rows;

pub use call::{admit, begun, state_checked, values_checked};
pub use fill::padded;
pub use rows::{action_known, phase_number};

// Phase 0 is Start, phase 1 Running.
#[derive(Clone, Copy, Debug, PartialEq, Eq)]
pub enum Phase {
    Start,
    Running,
}

// The phase, each automaton's location and each variable's value; what the model has none of is 0.
#[derive(Clone, Copy, Debug, PartialEq, Eq)]
pub struct State {
    pub phase: Phase,
    pub locations: [u32; 16],
    pub values: [i32; 48],
}
