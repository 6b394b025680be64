// Where the parts of a sheet stand in a table. Any words will do: from a place within the table no answer is past its
// end. A place stays a number beside the words: a walk goes from place to place, and a struct of both, made anew at
// each step, is no plainer.
#![tactic(auto)]

mod layout;
mod own;
mod parts;
mod starts;

ghost use Rattle.std.specs.Prelude.{◌≡◌, ◌≤◌, get_or};
ghost use Rattle.table_places.specs.AtMost.{at_most};
ghost use Rattle.table_places.specs.Outline.{reach, after_predicate, location_at, edge_at, edges_at, count_at};

pub use layout::{Layout, Sheet, automata_of, layout_of, variables_of};
pub use own::own_sets;
pub use parts::{
    actions, automata, edge_action, edge_from, edge_to, first_automaton, first_edge,
    first_location, high, location_count, low, nodes_at, owner, range_at, set_high, set_low,
    update_at, variables,
};
pub use starts::{first_start, start_at, start_count, starts_at};

// A number, as far as there can be so many.
#[tactic(auto, unfolding(crate::specs::AtMost::at_most))]
pub fn at_most(most: usize, n: usize) -> usize
    ensures value { result ≡ at_most most n }
    ensures upper_bound { result ≤ most }
{
    n.min(most)
}

// The place n words on, or the table's end.
#[tactic(auto, unfolding(crate::specs::Outline::reach))]
pub fn step(t: &[u32], at: usize, n: usize) -> usize
    ensures { result ≡ reach t.now at n }
{
    at.saturating_add(n).min(t.len())
}

// The word at a place, 0 past the end.
pub fn word(t: &[u32], at: usize) -> usize
    ensures { result ≡ get_or t.now at 0 }
{
    arithmetic::index(word32(t, at))
}

// The same, as the word that it is.
pub fn word32(t: &[u32], at: usize) -> u32
    ensures { result ≡ get_or t.now at 0 }
{
    t.get(at).copied().unwrap_or(0)
}

// Past a predicate: its count, and so many nodes.
#[tactic(auto, unfolding(crate::specs::Outline::after_predicate))]
pub fn after_predicate(t: &[u32], at: usize) -> usize
    ensures { result ≡ after_predicate t.now at }
{
    step(t, parts::nodes_at(t, at), word(t, at))
}

// Where the init of location j stands, `at` being where that of location 0 does. Its inv stands after it.
#[tactic(auto, using(crate::proofs::CodeLaws::location_laws))]
pub fn location_at(t: &[u32], at: usize, j: usize) -> usize
    ensures { result ≡ location_at t.now at j }
{
    let mut next = at;
    for _ in 0..j {
        let inv = after_predicate(t, next);
        next = after_predicate(t, inv);
    }
    next
}

// Where edge k stands, `at` being where edge 0 does: FROM, ACT, TO, and the update.
#[tactic(auto, using(crate::proofs::CodeLaws::edge_laws))]
pub fn edge_at(t: &[u32], at: usize, k: usize) -> usize
    ensures { result ≡ edge_at t.now at k }
{
    let mut next = at;
    for _ in 0..k {
        let update = parts::update_at(t, next);
        next = after_predicate(t, update);
    }
    next
}

// Where the number of an automaton's edges stands, `at` being where its set does. The first edge stands after it.
#[tactic(auto, unfolding(crate::specs::Outline::edges_at))]
pub fn edges_at(t: &[u32], at: usize) -> usize
    ensures { result ≡ edges_at t.now at }
{
    let locations = parts::location_count(t, at);
    location_at(t, parts::first_location(t, at), locations)
}

// Where the number of automata stands: after the variables.
#[tactic(auto, unfolding(crate::specs::Outline::count_at))]
pub fn count_at(t: &[u32]) -> usize
    ensures { result ≡ count_at t.now }
{
    parts::range_at(t, parts::variables(t))
}
