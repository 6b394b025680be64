// The composition's own start conditions, the P of each `ini`: they stand in the merged init after its clauses, and the
// merged inv has none. In the table they are predicates, one after the other.
#![tactic(auto, using(crate::proofs::StartLaws::start_laws))]

ghost use Rattle.std.specs.Prelude.{◌≡◌};
ghost use Rattle.merge_append.specs.Append.{Filled};
ghost use Rattle.merge_predicates.specs.Starts.{starts_of, no_starts, add_starts, start_nodes_at};

use merge_append::Filling;
use table_places::Layout;

// Where the first P stands, and how many there are.
#[derive(Clone, Copy, Debug, PartialEq, Eq)]
pub struct Starts {
    pub first: usize,
    pub count: usize,
}

// Those of the sheet whose layout this is.
pub fn starts_of(t: &[u32], x: Layout) -> Starts
    ensures { result ≡ starts_of t.now x }
{
    let at = table_places::starts_at(t, x);
    let first = table_places::first_start(t, at);
    let count = table_places::start_count(t, at);
    Starts { first, count }
}

// None.
pub fn no_starts() -> Starts
    ensures { result ≡ no_starts }
{
    Starts { first: 0, count: 0 }
}

// A sum, and their nodes.
pub fn starts_nodes(t: &[u32], s: Starts, sum: usize) -> usize
    ensures { result ≡ add_starts t.now s.first s.count sum }
{
    let mut place = s.first;
    let mut nodes = sum;
    for _ in 0..s.count {
        nodes = merge_append::add(nodes, table_places::word(t, place));
        place = table_places::after_predicate(t, place);
    }
    nodes
}

// Their nodes, without the counts.
pub fn copied(t: &[u32], s: Starts, out: &mut Filling)
    ensures { Filled (start_nodes_at t.now s.first s.count) out.old out.new }
{
    let mut place = s.first;
    for _ in 0..s.count {
        out.nodes(t, place);
        place = table_places::after_predicate(t, place);
    }
}
