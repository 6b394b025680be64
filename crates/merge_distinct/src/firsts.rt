// The edges of an automaton that repeat no earlier one, by their places.
#![tactic(auto, using(crate::proofs::FirstsLaws::firsts_laws))]

ghost use Rattle.std.specs.Prelude.{◌≡◌, ◌≤◌, length};
ghost use Rattle.merge_distinct.specs.Firsts.{edges_of, listed_in, repeats_by, first_ones, Gathered};

use crate::equality::{self};
use model::Model;

// How many edges an automaton has, whose count of edges stands at `edges`, as far as a sheet can have edges.
pub fn edges_of(t: &[u32], edges: usize) -> usize
    ensures value { result ≡ edges_of t.now edges }
    ensures upper_bound { result ≤ 512 }
{
    table_places::at_most(Model::EDGES, table_places::word(t, edges))
}

// Is the edge at a place equal to one of the first n that are listed?
fn is_listed(t: &[u32], at: usize, firsts: &[usize; Model::EDGES], n: usize) -> bool
    ensures { result ≡ listed_in t.now at firsts.now 0 n }
{
    let listed = &firsts[..n.min(Model::EDGES)];
    listed
        .iter()
        .any(|first| equality::same_edge(t, at, *first))
}

// The same; where no edge with its hash has been seen, the list is not looked at.
fn is_repeat(
    t: &[u32],
    at: usize,
    seen_hash: bool,
    firsts: &[usize; Model::EDGES],
    n: usize,
) -> bool
    ensures { result ≡ repeats_by t.now at seen_hash firsts.now n }
{
    seen_hash && is_listed(t, at, firsts, n)
}

// Lists the places of an automaton's edges that repeat no earlier one, and says how many they are. What `seen` holds
// before plays no part: a hash that is marked there only costs a look at the list.
pub fn gather(
    t: &[u32],
    edges: usize,
    seen: &mut [bool; 4096],
    firsts: &mut [usize; Model::EDGES],
) -> usize
    ensures gathered { Gathered (first_ones t.now edges) firsts.new result }
    ensures seen_len { (length seen.new ≡ 4096) × (length firsts.new ≡ 512) }
{
    let count = edges_of(t, edges);
    let mut place = table_places::first_edge(t, edges);
    let mut n = 0;
    for _ in 0..count {
        let hash = equality::hash(t, place);
        if !is_repeat(t, place, seen[hash], firsts, n) {
            firsts[n] = place;
            n += 1;
        }
        seen[hash] = true;
        place = table_places::after_predicate(t, table_places::update_at(t, place));
    }
    n
}
