// Row 6: do words make one predicate? No function calls itself: the stack does not grow with the text.
#![tactic(auto)]

mod formed;

pub use formed::well_formed;
