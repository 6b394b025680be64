// A sheet's words with each automaton's equal edges once, at the first one's place. Every function is total: on words
// that are no sheet's it finds and copies what its definition says.
#![tactic(auto)]

mod copying;
mod equality;
mod firsts;

ghost use Rattle.std.specs.Prelude.{◌≡◌};
ghost use Rattle.merge_append.specs.Append.{Filled};
ghost use Rattle.merge_distinct.specs.Distinct.{repeats_in, tree_end, distinct_words};

use merge_append::Filling;
use model::Model;
use table_places::Layout;

// Has some automaton an edge twice?
#[tactic(auto, using(crate::proofs::WholeLaws::repeats_laws, merge_append::proofs::Fronts::front_laws))]
pub fn repeats(t: &[u32], x: Layout) -> bool
    ensures { result ≡ repeats_in t.now x }
{
    let count = table_places::automata_of(x);
    let mut seen = [false; 4096];
    let mut firsts = [0usize; Model::EDGES];
    for edges in &x.edges[..count] {
        let n = firsts::gather(t, *edges, &mut seen, &mut firsts);
        if n != firsts::edges_of(t, *edges) {
            return true;
        }
    }
    false
}

// Where the tree's words end: after its start conditions.
#[tactic(auto, using(crate::proofs::WholeLaws::tree_end_is))]
fn tree_end(t: &[u32], x: Layout) -> usize
    ensures { result ≡ tree_end t.now x }
{
    let at = table_places::starts_at(t, x);
    let first = table_places::first_start(t, at);
    table_places::start_at(t, first, table_places::start_count(t, at))
}

// The sheet's words without the repeats.
pub fn distinct(t: &[u32], x: Layout, out: &mut Filling)
    ensures { Filled (distinct_words t.now x) out.old out.new }
{
    copying::part(t, 0, table_places::first_automaton(t), out);
    copying::automata(t, x, out);
    copying::part(t, x.tree, tree_end(t, x), out);
}
