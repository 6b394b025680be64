// What Definition 4 needs of a composition, in its order. The edges' takers stand in a list of their own. The layout
// stays apart from the words, in the whole merger: it is the definition's wild-cards, the first part that is gathered.
use crate::sync::Sets;
use merge_predicates::{Functions, Starts};
use table_places::Layout;

#[derive(Clone, Copy, Debug, PartialEq, Eq)]
pub struct Gathered {
    // #: a wild-card for each automaton: how many there are, and where each stands
    pub wildcards: Layout,
    // ipred: the automata's functions to initial predicates, and the composition's own start conditions
    pub inits: Functions,
    pub starts: Starts,
    // inv: those to invariants
    pub invs: Functions,
    // sync: the synchronising set, and each automaton's own
    pub sets: Sets,
    // how many action transitions there are
    pub edges: usize,
}
