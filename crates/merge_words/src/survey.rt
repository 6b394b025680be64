// What rows 33 and 34 ask of the merged predicates: is one too deep, and how many nodes they have.
ghost use Rattle.std.specs.Prelude.{◌≡◌};
ghost use Rattle.merge_append.specs.Runs.{run};
ghost use Rattle.merge_words.specs.Survey.{with_edge, survey_from, survey_of, survey_start, survey_whole};

use crate::gathering::Gathered;
use merge_predicates::{Functions, Starts};
use model::Model;

#[derive(Clone, Copy, Debug, PartialEq, Eq)]
pub struct Survey {
    pub deep: bool,
    pub nodes: usize,
}

// The merged edge whose takers stand at a place of the list, taken in.
fn with_edge(t: &[u32], takers: &[u32; Model::WORDS], at: usize, s: Survey) -> Survey
    ensures { result ≡ with_edge t.now (run takers.now at 16) s }
{
    let places = merge_takers::places_at(takers, at);
    let deep = merge_edges::updates_deep(t, places);
    let nodes = merge_edges::takers_nodes(t, places);
    Survey {
        deep: s.deep | deep,
        nodes: merge_append::add(s.nodes, nodes),
    }
}

// The first `count` edges of the list.
fn with_edges(t: &[u32], takers: &[u32; Model::WORDS], count: usize, s: Survey) -> Survey
    ensures { result ≡ survey_from t.now takers.now 0 count s }
{
    let mut at = 0;
    let mut sofar = s;
    for _ in 0..count {
        sofar = with_edge(t, takers, at, sofar);
        at = table_places::step(takers, at, 16);
    }
    sofar
}

// The merged init, or the merged inv.
fn predicate(t: &[u32], f: Functions, s: Starts) -> Survey
    ensures { result ≡ survey_of t.now f s }
{
    let places = f.places;
    let deep = merge_predicates::merged_deep(t, &places, f.total);
    let nodes = merge_predicates::merged_nodes(t, &places, f.total);
    let starts_deep = merge_predicates::starts_deep(t, s);
    Survey {
        deep: deep | starts_deep,
        nodes: merge_predicates::starts_nodes(t, s, nodes),
    }
}

// Both of them.
fn start(t: &[u32], inits: Functions, starts: Starts, invs: Functions) -> Survey
    ensures { result ≡ survey_start t.now inits starts invs }
{
    let init = predicate(t, inits, starts);
    let inv = predicate(t, invs, merge_predicates::no_starts());
    Survey {
        deep: init.deep | inv.deep,
        nodes: merge_append::add(init.nodes, inv.nodes),
    }
}

// All merged predicates.
pub fn whole(t: &[u32], g: Gathered, takers: &[u32; Model::WORDS]) -> Survey
    ensures { result ≡ survey_whole t.now g takers.now }
{
    with_edges(t, takers, g.edges, start(t, g.inits, g.starts, g.invs))
}
