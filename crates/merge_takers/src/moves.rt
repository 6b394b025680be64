// The moves of an action: how many there are, and which edges each has.
#![tactic(auto, using(crate::proofs::MovesLaws::move_laws))]

ghost use Rattle.std.specs.Prelude.{◌≡◌, ◌≤◌};
ghost use Rattle.merge_takers.specs.Moves.{one_more, under_from, under_at, counts_of, plan_of, move_total, places_of};
ghost use Rattle.merge_takers.specs.Moves.{last_action, moves_in};

use crate::taking::{self};
use model::Model;
use table_places::Layout;

// The plan of an action: the cells of the tree's nodes, and how many moves there are, at most 513.
#[derive(Drop)]
pub struct ActionPlan {
    pub cells: [u32; 192],
    pub count: u32,
}

// One more in a sum, if there is one here.
fn one_more(here: bool, sum: usize) -> usize
    ensures { result ≡ one_more here sum }
{
    if here { merge_append::add(sum, 1) } else { sum }
}

// Of `count` edges, how many are under the action.
fn under(t: &[u32], action: usize, count: usize, first: usize) -> usize
    ensures { result ≡ under_from t.now action count first 0 }
{
    let mut place = first;
    let mut sum = 0;
    for _ in 0..count {
        sum = one_more(taking::is_under(t, action, place), sum);
        place = table_places::after_predicate(t, table_places::update_at(t, place));
    }
    sum
}

// The same of an automaton, whose count of edges stands at `edges`.
fn under_at(t: &[u32], action: usize, edges: usize) -> usize
    ensures { result ≡ under_at t.now action edges }
{
    let first = table_places::first_edge(t, edges);
    under(t, action, table_places::word(t, edges), first)
}

// A, as far as a sheet can have actions.
pub fn last_action(x: Layout) -> u32
    ensures value { result ≡ last_action x }
    ensures upper_bound { result ≤ 63 }
{
    x.actions.min(Model::LAST_ACTION) as u32
}

// A composition in a table: the words, where its parts stand, and the automata's own sets.
#[derive(Clone, Copy)]
pub struct Composition<'a> {
    pub words: &'a [u32],
    pub layout: Layout,
    pub own: &'a [u64; 16],
}

impl Composition<'_> {
    // For each automaton, how many edges it has under an action.
    fn counts(self, action: usize) -> [u32; 16]
        ensures { result ≡ counts_of self.entry.words.now self.entry.layout action }
    {
        let count = table_places::automata_of(self.layout);
        let mut under = [0u32; 16];
        // `under` keeps its index: of what a zip with its `iter_mut` writes the library says only the length.
        for (i, edges) in self.layout.edges[..count].iter().enumerate() {
            under[i] = merge_append::narrow(under_at(self.words, action, *edges));
        }
        under
    }

    // The plan of an action.
    pub fn plan(self, action: u32) -> ActionPlan
        ensures { result ≡ plan_of self.entry.words.now self.entry.layout self.entry.own.now action }
    {
        let under = self.counts(arithmetic::index(action));
        let root = table_places::nodes_at(self.words, self.layout.tree);
        let mut cells = [0u32; 192];
        let own = self.own;
        let p = merge_moves::plan(self.words, root, own, &under, action, &mut cells);
        ActionPlan {
            cells,
            count: p.count,
        }
    }

    // Where the edges stand that move k of the planned action takes; 0 for an automaton that takes none.
    pub fn places(self, action: usize, cells: &[u32; 192], k: u32) -> [usize; 16]
        ensures { result ≡ places_of self.entry.words.now self.entry.layout cells.now action k }
    {
        let root = table_places::nodes_at(self.words, self.layout.tree);
        let picks = merge_moves::pick(self.words, root, cells, k);
        taking::takers_of(self.words, self.layout, action, &picks)
    }

    // How many moves an action has, at most 513.
    fn action_moves(self, action: u32) -> u32
        ensures { result ≡ move_total self.entry.words.now self.entry.layout self.entry.own.now action }
    {
        self.plan(action).count
    }

    // How many merged edges there are.
    pub fn all_moves(self) -> usize
        ensures { result ≡ moves_in self.entry.words.now self.entry.layout self.entry.own.now }
    {
        let mut sum = 0;
        for action in 0..=last_action(self.layout) {
            let moves = arithmetic::index(self.action_moves(action));
            sum = merge_append::add(sum, moves);
        }
        sum
    }
}
