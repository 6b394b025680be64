// States from the lists of a call.
ghost use Rattle.std.specs.Prelude.{◌≡◌, pos};
ghost use Rattle.judge_rows.specs.States.{filled, state_of};

use crate::{Phase, State};

// The list in an array of its own: longer lists are cut, and `other` stands behind shorter ones.
pub fn padded<T: Copy, const N: usize>(list: &[T], other: T) -> [T; N]
    ensures { result ≡ filled N other list.now }
{
    let mut all = [other; N];
    let n = list.len().min(N);
    all[..n].copy_from_slice(&list[..n]);
    all
}

impl State {
    // Longer lists are cut.
    #[tactic(auto, using(crate::proofs::CodeLaws::state_is))]
    pub fn of(phase: Phase, locations: &[u32], values: &[i32]) -> State
        ensures { result ≡ state_of phase locations.now values.now }
    {
        State {
            phase,
            locations: padded(locations, 0),
            values: padded(values, 0),
        }
    }
}
