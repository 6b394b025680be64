// The plan of one action: for each subtree, whether the action is in its set and how many moves it has.
#![tactic(auto, using(crate::proofs::PlanLaws::planning_laws))]

ghost use Rattle.std.specs.Prelude.{◌≡◌, false, ◌-◌, get_or};
ghost use Rattle.model.specs.Bounds.{max_tree_nodes};
ghost use Rattle.model.specs.Table.{set_of};
ghost use Rattle.merge_moves.specs.Plan.{planned, par_plan, syn_plan, leaf_plan, stored, PlansTree};

use crate::capping::{self};
use table_tree::Found;

// Is the action in the set of a subtree, how many moves has it, where do its words end, and how many nodes are left
// there?
#[derive(Clone, Copy, Debug, PartialEq, Eq)]
pub struct Planned {
    pub inside: bool,
    pub count: u32,
    pub next: usize,
    pub left: usize,
}

// Automaton k's count of edges under the action; past the end none.
fn edges_under(under: &[u32], k: usize) -> u32
    ensures { result ≡ get_or under.now k 0 }
{
    under.get(k).copied().unwrap_or(0)
}

// The place of a node's cell: its word's place, counted from the root's.
pub fn place(at: usize, root: usize) -> usize
    ensures { result ≡ at - root }
{
    at.saturating_sub(root)
}

// A `par` from its sides, and a `syn` from its set and what is under it.
fn par_plan(c: Planned, d: Planned) -> Planned
    ensures { result ≡ par_plan c d }
{
    Planned {
        inside: c.inside | d.inside,
        count: capping::sides_count(c.inside, d.inside, c.count, d.count),
        next: d.next,
        left: d.left,
    }
}

fn syn_plan(low: u32, high: u32, action: u32, c: Planned) -> Planned
    ensures { result ≡ syn_plan (set_of low high) action c }
{
    Planned {
        inside: table_tree::in_words(low, high, action) | c.inside,
        count: c.count,
        next: c.next,
        left: c.left,
    }
}

// Where no node stands.
fn no_plan(at: usize, left: usize) -> Planned
    ensures { result ≡ planned false 0 at left }
{
    Planned {
        inside: false,
        count: 0,
        next: at,
        left,
    }
}

// A node's cell is filled where there is one: a tree of 64 nodes has at most 192 words.
#[tactic(auto, using(crate::proofs::PlanLaws::store_laws))]
fn store(cells: &mut [u32; 192], root: usize, at: usize, p: Planned) -> Planned
    ensures { (result ≡ p) × (cells.new ≡ stored root at p cells.old) }
{
    let i = place(at, root);
    if i < 192 {
        cells[i] = capping::cell(p.inside, p.count);
    }
    p
}

// What a plan reads: a tree's words, where its root's word stands, the automata's own sets, the action, and how many
// edges each automaton has under it.
#[derive(Clone, Copy)]
struct Planning<'a> {
    words: &'a [u32],
    root: usize,
    sets: &'a [u64],
    under: &'a [u32],
    action: u32,
}

impl Planning<'_> {
    // The leaf of automaton k.
    fn leaf(&self, k: usize, next: usize, left: usize) -> Planned
        ensures { result ≡ leaf_plan self.now.sets.now self.now.under.now self.now.action k next left }
    {
        Planned {
            inside: table_tree::in_word(table_tree::own(self.sets, k), self.action),
            count: capping::capped(edges_under(self.under, k)),
            next,
            left,
        }
    }

    // The subtree at `at`, with `left` nodes left: its own node uses one, and the rest goes from side to side. So on
    // any words no more nodes are read than were given.
    #[tactic(auto, using(crate::proofs::PlanLaws::plan_laws, crate::proofs::PlanLaws::fill_laws))]
    fn plan(&self, at: usize, left: usize, cells: &mut [u32; 192]) -> Planned
        ensures { PlansTree self.now.words.now self.now.sets.now self.now.under.now self.now.action
            self.now.root left at cells.old cells.new result }
    {
        if left == 0 {
            return no_plan(at, left);
        }
        let rest = left - 1;
        match table_tree::node_at(self.words, at) {
            Found::Par(next) => {
                let c = self.plan(next, rest, cells);
                let d = self.plan(c.next, c.left, cells);
                store(cells, self.root, at, par_plan(c, d))
            }
            Found::Syn(low, high, next) => {
                let c = self.plan(next, rest, cells);
                store(cells, self.root, at, syn_plan(low, high, self.action, c))
            }
            Found::Leaf(k, next) => store(cells, self.root, at, self.leaf(k, next, rest)),
            Found::Stray => store(cells, self.root, at, no_plan(at, rest)),
        }
    }
}

// The tree at `at`, where `sets` has the automata's own sets and `under` their counts of edges under the action.
pub fn plan(
    words: &[u32],
    at: usize,
    sets: &[u64],
    under: &[u32],
    action: u32,
    cells: &mut [u32; 192],
) -> Planned
    ensures { PlansTree words.now sets.now under.now action at max_tree_nodes at
        cells.old cells.new result }
{
    let planning = Planning {
        words,
        root: at,
        sets,
        under,
        action,
    };
    planning.plan(at, model::Tree::NODES, cells)
}
