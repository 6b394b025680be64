// Can the automata that take an action each choose one of their edges so that every changed variable is mentioned?
// Where many edges could be chosen, counting is tried before the search (judge_cover): by parts of the variables that
// no edge joins, and by weights of the variables. Why a count that falls short says no: proofs/BoundLaws.antt.
#![tactic(auto)]

mod balance;
mod edges;
mod parts;
mod rounds;
mod weights;

ghost use Rattle.std.specs.Prelude.{◌≡◌};
ghost use Rattle.judge_cover.specs.Cover.{coverable, groups_of};

use crate::edges::Takers;

// As `judge_cover::covered`, without the search where a count says no.
pub fn covered(masks: &[u64], first: &[usize], takers: u64, changed: u64) -> bool
    ensures { result ≡ coverable (groups_of masks.now first.now takers) changed }
{
    let t = Takers {
        masks,
        first,
        set: takers,
    };
    if t.many() {
        if parts::short(&t, changed) {
            return false;
        }
        if rounds::short(&t, changed) {
            return false;
        }
    }
    judge_cover::covered(masks, first, takers, changed)
}
