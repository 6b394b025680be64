// Which variables an update writes: those whose new value its nodes name. Sets of variables are words of 64 bits, bit K
// for variable K.
#![tactic(auto)]

mod sets;

pub use sets::{all, clear, unwritten, written};
