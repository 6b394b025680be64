// Which edges a merged edge has, from what each automaton takes: none by 0, and edge j among its edges under the
// action by 1 + j.
#![tactic(auto, using(crate::proofs::TakingLaws::taken_laws))]

ghost use Rattle.std.specs.Prelude.{◌≡◌};
ghost use Rattle.merge_takers.specs.Taking.{is_under, still, edge_under, taken_at, takers};

use table_places::Layout;

// Is the edge at a place under the action?
pub fn is_under(t: &[u32], action: usize, at: usize) -> bool
    ensures { result ≡ is_under t.now action at }
{
    table_places::edge_action(t, at) == action
}

// How many edges under the action are still to be passed, after one that may be under it.
fn still(here: bool, skip: usize) -> usize
    ensures { result ≡ still here skip }
{
    if here { skip.saturating_sub(1) } else { skip }
}

// Where edge j under the action stands, among `count` edges of which the first stands at `first`; the end, if there is
// none.
fn find(t: &[u32], action: usize, j: usize, count: usize, first: usize) -> usize
    ensures { result ≡ edge_under t.now action j count first }
{
    let mut place = first;
    let mut skip: usize = j;
    for _ in 0..count {
        let here = is_under(t, action, place);
        if here & (skip == 0) {
            return place;
        }
        skip = still(here, skip);
        place = table_places::after_predicate(t, table_places::update_at(t, place));
    }
    t.len()
}

// Stays 0 for no taker: the lent list holds words, and `taken_at` of specs/Taking and `update_at` of merge_edges say 0.
// The edge that an automaton takes, whose count of edges stands at `edges`.
fn taken(t: &[u32], action: usize, pick: usize, edges: usize) -> usize
    ensures { result ≡ taken_at t.now action pick edges }
{
    if pick == 0 {
        return 0;
    }
    let first = table_places::first_edge(t, edges);
    find(t, action, pick - 1, table_places::word(t, edges), first)
}

// For each automaton, where its edge stands; 0 if it takes none.
pub fn takers_of(t: &[u32], x: Layout, action: usize, picks: &[u32; 16]) -> [usize; 16]
    ensures { result ≡ takers t.now x action picks.now }
{
    let count = table_places::automata_of(x);
    let mut places = [0usize; 16];
    // `places` keeps its index: of what a zip with its `iter_mut` writes the library says only the length.
    for (i, edges) in x.edges[..count].iter().enumerate() {
        places[i] = taken(t, action, arithmetic::index(picks[i]), *edges);
    }
    places
}
