// The words that are copied: all but the edges that are repeats.
ghost use Rattle.std.specs.Prelude.{◌≡◌, length, take};
ghost use Rattle.merge_append.specs.Append.{Filled};
ghost use Rattle.merge_append.specs.Runs.{run};
ghost use Rattle.merge_distinct.specs.Equality.{edge_length};
ghost use Rattle.merge_distinct.specs.Distinct.{part, edge_words, automaton_words, automata_words};
ghost use Rattle.table_places.specs.Layout.{automata_of};

use crate::equality::{self};
use crate::firsts::{self};
use merge_append::Filling;
use model::Model;
use table_places::Layout;

// From one place up to another; nothing, if that is not behind.
pub fn part(t: &[u32], from: usize, to: usize, out: &mut Filling)
    ensures { Filled (part t.now from to) out.old out.new }
{
    out.copy(t, from, to.saturating_sub(from));
}

// The edge at a place.
#[tactic(auto, using(crate::proofs::CopyingLaws::edge_is))]
fn edge(t: &[u32], place: usize, out: &mut Filling)
    ensures { Filled (run t.now place (edge_length t.now place)) out.old out.new }
{
    out.copy(t, place, equality::edge_length(t, place));
}

// The first n edges that are listed.
fn edges(t: &[u32], firsts: &[usize; Model::EDGES], n: usize, out: &mut Filling)
    ensures { Filled (edge_words t.now (take n firsts.now)) out.old out.new }
{
    for first in &firsts[..n.min(Model::EDGES)] {
        edge(t, *first, out);
    }
}

// The automaton whose set stands at one place, and whose count of edges at another.
fn automaton(t: &[u32], set: usize, place: usize, seen: &mut [bool; 4096], out: &mut Filling)
    ensures appended { Filled (automaton_words t.now set place) out.old out.new }
    ensures seen_len { length seen.new ≡ 4096 }
{
    let mut firsts = [0usize; Model::EDGES];
    let n = firsts::gather(t, place, seen, &mut firsts);
    part(t, set, place, out);
    out.put(n);
    edges(t, &firsts, n, out);
}

// All automata.
pub fn automata(t: &[u32], x: Layout, out: &mut Filling)
    ensures { Filled (automata_words t.now x.sets x.edges 0 (automata_of x)) out.old out.new }
{
    let count = table_places::automata_of(x);
    let mut seen = [false; 4096];
    // `edges` keeps its index: with a zip of both slices the goals `preserved` and `returns` stayed open.
    for (i, set) in x.sets[..count].iter().enumerate() {
        automaton(t, *set, x.edges[i], &mut seen, out);
    }
}
