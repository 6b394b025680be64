// One line of a table: what its words say, and that no row refuses it.
#![tactic(auto)]

ghost use Rattle.std.specs.Prelude.{◌≡◌};

mod composition;
mod one_line;
mod predicates;

pub use one_line::read;
pub use predicates::ranges;

// What the words of a line say: its number if it counts something, the nodes of its predicates, and where the next
// line's words begin. There is none where these words are no line's, or the line breaks a row.
#[derive(Clone, Copy, Debug, PartialEq, Eq)]
pub struct Line {
    pub number: usize,
    pub nodes: usize,
    pub next: usize,
}

impl Line {
    // A line that has no number and no predicate.
    fn ending(next: usize) -> Line
        ensures { result ≡ record { number = 0; nodes = 0; next = next } }
    {
        Line {
            number: 0,
            nodes: 0,
            next,
        }
    }
}
