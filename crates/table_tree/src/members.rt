// Is an action in the synchronising set of a composition?
ghost use Rattle.std.specs.Prelude.{◌≡◌, false, get_or};
ghost use Rattle.table_tree.specs.Members.{membership, member_at, in_set_at};

use crate::nodes::{self, Found};
use crate::sets::{self};

// Is the action in the set of a subtree, where do its words end, and how many nodes are left there?
#[derive(Clone, Copy, Debug, PartialEq, Eq)]
pub struct Membership {
    pub inside: bool,
    pub next: usize,
    pub left: usize,
}

// Automaton k's own set; past the end the empty one.
pub fn own(sets: &[u64], k: usize) -> u64
    ensures { result ≡ get_or sets.now k 0 }
{
    sets.get(k).copied().unwrap_or(0)
}

// Where no node stands.
fn no_member(next: usize, left: usize) -> Membership
    ensures { result ≡ membership false next left }
{
    Membership {
        inside: false,
        next,
        left,
    }
}

// The subtree at `at`, with `left` nodes left: its own node uses one, and the rest goes from side to side. So on any
// words no more nodes are read than were given.
fn member_at(words: &[u32], at: usize, left: usize, sets: &[u64], action: u32) -> Membership
    ensures { result ≡ member_at words.now sets.now action left at }
{
    if left == 0 {
        return no_member(at, left);
    }
    let rest = left - 1;
    match nodes::node_at(words, at) {
        Found::Par(next) => {
            let c = member_at(words, next, rest, sets, action);
            let d = member_at(words, c.next, c.left, sets, action);
            Membership {
                inside: c.inside | d.inside,
                ..d
            }
        }
        Found::Syn(low, high, next) => {
            let c = member_at(words, next, rest, sets, action);
            Membership {
                inside: sets::in_words(low, high, action) | c.inside,
                ..c
            }
        }
        Found::Leaf(k, next) => Membership {
            inside: sets::in_word(own(sets, k), action),
            next,
            left: rest,
        },
        Found::Stray => no_member(at, rest),
    }
}

// Is the action in the set of the subtree at `at`, where `sets` has the automata's own sets?
#[tactic(auto, unfolding(crate::specs::Members::in_set_at))]
pub fn in_set(words: &[u32], at: usize, sets: &[u64], action: u32) -> bool
    ensures { result ≡ in_set_at words.now sets.now action at }
{
    member_at(words, at, model::Tree::NODES, sets, action).inside
}
