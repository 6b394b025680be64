// Where the parts of a sheet stand, found by one walk and lent to all that ask for them again and again.
ghost use Rattle.std.specs.Prelude.{◌≡◌, ◌≤◌};
ghost use Rattle.table_places.specs.Layout.{layout_of, automata_of, variables_of};

use model::Model;

// A, V and N; where each automaton's set stands, and where its number of edges does, the table's end for one that there
// is not; where the tree stands, its number of nodes first.
#[derive(Clone, Copy, Debug, PartialEq, Eq)]
pub struct Layout {
    pub actions: usize,
    pub variables: usize,
    pub automata: usize,
    pub sets: [usize; 16],
    pub edges: [usize; 16],
    pub tree: usize,
}

// A table's words, and where the parts of its sheet stand in them.
#[derive(Clone, Copy, Debug, PartialEq, Eq)]
pub struct Sheet<'a> {
    pub words: &'a [u32],
    pub layout: Layout,
}

impl<'a> Sheet<'a> {
    // By one walk over the words.
    pub fn of(words: &'a [u32]) -> Sheet<'a>
        ensures words { result.words.now ≡ words.now }
        ensures layout { result.layout ≡ layout_of words.now }
    {
        Sheet {
            words,
            layout: layout_of(words),
        }
    }
}

#[tactic(auto, using(crate::proofs::LayoutLaws::laying_laws))]
pub fn layout_of(t: &[u32]) -> Layout
    ensures { result ≡ layout_of t.now }
{
    let automata = crate::automata(t);
    let count = crate::at_most(Model::AUTOMATA, automata);
    let end = t.len();
    let mut sets = [end; 16];
    let mut edges = [end; 16];
    let mut at = crate::first_automaton(t);
    for k in 0..count {
        let place = crate::edges_at(t, at);
        sets[k] = at;
        edges[k] = place;
        at = crate::edge_at(t, crate::first_edge(t, place), crate::word(t, place));
    }
    Layout {
        actions: crate::actions(t),
        variables: crate::variables(t),
        automata,
        sets,
        edges,
        tree: at,
    }
}

// N, as far as a sheet has automata.
#[tactic(auto, unfolding(crate::specs::Layout::automata_of))]
pub fn automata_of(x: Layout) -> usize
    ensures value { result ≡ automata_of x }
    ensures upper_bound { result ≤ 16 }
{
    crate::at_most(Model::AUTOMATA, x.automata)
}

// V, as far as a sheet has variables.
#[tactic(auto, unfolding(crate::specs::Layout::variables_of))]
pub fn variables_of(x: Layout) -> usize
    ensures value { result ≡ variables_of x }
    ensures upper_bound { result ≤ 48 }
{
    crate::at_most(Model::VARIABLES, x.variables)
}
