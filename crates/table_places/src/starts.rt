// The start conditions: behind the tree's nodes stand how many `ini` it has, and the P of each, in tree order. Each P
// is a predicate, and so the next one stands at `after_predicate`.
ghost use Rattle.std.specs.Prelude.{◌≡◌, ◌≤◌};
ghost use Rattle.table_places.specs.Starts.{starts_at, start_count, first_start, start_at};

use crate::Layout;

// Where their number stands: after the tree's nodes.
#[tactic(auto, unfolding(crate::specs::Starts::starts_at))]
pub fn starts_at(t: &[u32], x: Layout) -> usize
    ensures { result ≡ starts_at t.now x.tree }
{
    table_tree::skip(t, crate::nodes_at(t, x.tree))
}

// How many there are, as far as a tree can have so many; `at` is where their number stands.
#[tactic(auto, unfolding(crate::specs::Starts::start_count))]
pub fn start_count(t: &[u32], at: usize) -> usize
    ensures value { result ≡ start_count t.now at }
    ensures upper_bound { result ≤ 64 }
{
    crate::at_most(model::Tree::NODES, crate::word(t, at))
}

// Where the first P stands, `at` being where their number does.
#[tactic(auto, unfolding(crate::specs::Starts::first_start))]
pub fn first_start(t: &[u32], at: usize) -> usize
    ensures { result ≡ first_start t.now at }
{
    crate::step(t, at, 1)
}

// Where P number k stands, `at` being where P number 0 does.
#[tactic(auto, using(crate::proofs::StartLaws::start_laws))]
pub fn start_at(t: &[u32], at: usize, k: usize) -> usize
    ensures { result ≡ start_at t.now at k }
{
    let mut next = at;
    for _ in 0..k {
        next = crate::after_predicate(t, next);
    }
    next
}
