// The definition itself: group after group, every edge. For groups that do not stand one after the other.
ghost use Rattle.std.specs.Prelude.{◌≡◌, ◌≤◌};
ghost use Rattle.judge_cover.specs.Cover.{coverable};
ghost use Rattle.judge_cover.specs.Steps.{groups_from};

use crate::edges::{self};
use crate::places::{self};

// Can one edge of each group from group k on be chosen so that nothing of u is left?
#[tactic(auto, using(crate::proofs::SeekLaws::plain_laws))]
pub(crate) fn cover(
    masks: &[u64],
    starts: &[usize],
    ends: &[usize],
    k: usize,
    n: usize,
    u: u64,
) -> bool
    requires { n ≤ 16 }
    ensures { result ≡ coverable (groups_from masks.now starts.now ends.now k n) u }
{
    if n <= k {
        return u == 0;
    }
    let from = places::place(starts, k);
    let to = places::place(ends, k);
    for i in from..to {
        if cover(masks, starts, ends, k + 1, n, edges::left_by(masks, u, i)) {
            return true;
        }
    }
    false
}
