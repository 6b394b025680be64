// The merged init, and the merged inv: `all K` of `imp eq vI J` with that init (or inv), for each automaton's pointer
// and location, and in the init of the composition's own start conditions after them. Definition 4 makes them of the
// functions fs (or gs).
#![tactic(auto, using(crate::proofs::ClauseLaws::nodes_laws))]

ghost use Rattle.std.specs.Prelude.{◌≡◌, [], ◌∷◌};
ghost use Rattle.table_places.specs.Layout.{automata_of};
ghost use Rattle.merge_append.specs.Append.{Filled};
ghost use Rattle.merge_append.specs.NodeWords.{all_node};
ghost use Rattle.merge_predicates.specs.Clauses.{clause_words, value_clauses, function_clauses, value_nodes};
ghost use Rattle.merge_predicates.specs.Clauses.{merged_nodes, merged_operands, merged_words};

use crate::functions::{self, Functions};
use crate::starts::{self, Starts};
use merge_append::Filling;
use table_places::Layout;

// `imp eq vK J` with the predicate at a place.
fn clause(t: &[u32], k: usize, j: usize, part: usize, out: &mut Filling)
    ensures { Filled (clause_words t.now k j part) out.old out.new }
{
    let equation = [
        merge_append::imp_node(),
        merge_append::eq_node(),
        merge_append::old_node(k),
        merge_append::number_node(j),
    ];
    out.put_all(&equation);
    out.nodes(t, part);
}

// For the `count` locations of an automaton with the pointer k, whose values begin at index `first`.
fn at_locations(
    t: &[u32],
    places: &[usize],
    first: usize,
    k: usize,
    count: usize,
    out: &mut Filling,
)
    ensures { Filled (value_clauses t.now places.now first k 0 count) out.old out.new }
{
    for j in 0..count {
        let place = functions::value(places, merge_append::add(first, j));
        clause(t, k, j, place, out);
    }
}

// For each automaton, by its pointer.
fn at_automata(t: &[u32], x: Layout, f: &Functions, out: &mut Filling)
    ensures { Filled (function_clauses t.now f.now.domains f.now.places x.variables 0 (automata_of x) 0)
        out.old out.new }
{
    let count = table_places::automata_of(x);
    let mut first = 0;
    for (i, locations) in f.domains[..count].iter().enumerate() {
        let pointer = merge_append::pointer(x.variables, i);
        at_locations(t, &f.places, first, pointer, *locations, out);
        first = merge_append::add(first, *locations);
    }
}

// The nodes of the merged init, or of the merged inv, of which the first `count` values stand at these places; those of
// start conditions are not among them.
pub fn merged_nodes(t: &[u32], places: &[usize], count: usize) -> usize
    ensures { result ≡ value_nodes t.now places.now 0 count 1 }
{
    let mut sum = 1;
    for i in 0..count {
        let nodes = table_places::word(t, functions::value(places, i));
        sum = merge_append::add(merge_append::add(sum, 4), nodes);
    }
    sum
}

// The count of nodes of the merged init, or of the merged inv, and its first node.
fn opening(t: &[u32], f: &Functions, s: Starts, out: &mut Filling)
    ensures { Filled (merged_nodes t.now f.now s ∷ all_node (merged_operands f.now s) ∷ []) out.old out.new }
{
    let nodes = starts::starts_nodes(t, s, merged_nodes(t, &f.places, f.total));
    let operands = merge_append::add(f.total, s.count);
    out.put_all(&[nodes, merge_append::all_node(operands)]);
}

// The merged init, or the merged inv, whole: the clauses, and the start conditions after them.
pub fn merged(t: &[u32], x: Layout, f: Functions, s: Starts, out: &mut Filling)
    ensures { Filled (merged_words t.now x f s) out.old out.new }
{
    opening(t, &f, s, out);
    at_automata(t, x, &f, out);
    starts::copied(t, s, out);
}
