// The automata's own synchronising sets.
ghost use Rattle.std.specs.Prelude.{◌≡◌};
ghost use Rattle.table_places.specs.Own.{own_set, own_sets};

use crate::Layout;

// The set of the automaton at a place: its two words as one.
#[tactic(auto, unfolding(crate::specs::Own::own_set))]
fn own_set(t: &[u32], at: usize) -> u64
    ensures { result ≡ own_set t.now at }
{
    table_tree::set_of(crate::set_low(t, at), crate::set_high(t, at))
}

// Each automaton's own set; 0 where there is no automaton.
#[tactic(auto, unfolding(crate::specs::Own::own_sets))]
pub fn own_sets(t: &[u32], x: Layout) -> [u64; 16]
    ensures { result ≡ own_sets t.now x.sets }
{
    x.sets.map(|at| own_set(t, at))
}
