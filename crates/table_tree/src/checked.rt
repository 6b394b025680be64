// Do the words make up a tree that no row refuses?
ghost use Rattle.std.specs.Prelude.{◌≡◌, ◌≤◌};
ghost use Rattle.table_tree.specs.Nodes.{node_at};
ghost use Rattle.table_tree.specs.Checked.{step_of, check_from, tree_check};

use crate::nodes::{self, Found};
use crate::sets::{self};

// A tree that no row refuses: the place after its nodes, and how many of them are `ini`.
#[derive(Clone, Copy, Debug, PartialEq, Eq)]
pub struct TreeEnd {
    pub next: usize,
    pub inis: usize,
}

// Between two nodes: the place of the next one, how many subtrees are owed, and how many leaves and `ini` there were.
#[derive(Clone, Copy)]
struct Step {
    next: usize,
    owed: usize,
    leaves: usize,
    inis: usize,
}

fn one_node(words: &[u32], actions: u32, step: Step) -> Option<Step>
    requires { (step.owed ≤ 4294967296) × (step.leaves ≤ 4294967296) × (step.inis ≤ 4294967296) }
    ensures { result ≡ step_of actions step.owed step.leaves step.inis (node_at words.now step.next) }
{
    if step.owed == 0 {
        return None;
    }
    match nodes::node_at(words, step.next) {
        Found::Par(next) => Some(Step {
            next,
            owed: step.owed + 1,
            ..step
        }),
        Found::Syn(low, high, next) => {
            if !sets::set_sound(low, high, actions) {
                return None;
            }
            let inis = step.inis + sets::unfilled(low, high);
            Some(Step { next, inis, ..step })
        }
        Found::Leaf(k, next) => {
            if k != step.leaves {
                return None;
            }
            Some(Step {
                next,
                owed: step.owed - 1,
                leaves: step.leaves + 1,
                ..step
            })
        }
        Found::Stray => None,
    }
}

// `count` nodes from `at` on, which are to be one tree.
#[tactic(auto, using(crate::proofs::CheckLaws::walk_laws))]
fn walk(words: &[u32], at: usize, count: u32, actions: u32, automata: usize) -> Option<TreeEnd>
    ensures { result ≡ check_from words.now actions automata count at 1 0 0 }
{
    let mut step = Step {
        next: at,
        owed: 1,
        leaves: 0,
        inis: 0,
    };
    for _ in 0..count {
        step = one_node(words, actions, step)?;
    }
    if step.owed != 0 || step.leaves != automata {
        return None;
    }
    Some(TreeEnd {
        next: step.next,
        inis: step.inis,
    })
}

// The tree at `at`, where its count of nodes stands, with so many actions and automata.
#[tactic(auto, using(crate::proofs::CheckLaws::check_laws))]
pub fn check(words: &[u32], at: usize, actions: u32, automata: usize) -> Option<TreeEnd>
    ensures { result ≡ tree_check words.now at actions automata }
{
    let count = *words.get(at)?;
    if model::Tree::NODES < count as usize {
        return None;
    }
    walk(words, at + 1, count, actions, automata)
}
