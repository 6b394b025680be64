// What the groups can cover at most.
ghost use Rattle.std.specs.Prelude.{◌≡◌, ◌≤◌, length};
ghost use Rattle.judge_cover.specs.Cover.{group};
ghost use Rattle.judge_cover.specs.Steps.{CoversAtMost, BoundsOf};

use crate::edges::{self};
use crate::places::{self};

// For each group, how many variables of u an edge of it covers at most; and the sum of these.
// `starts`, `ends` and `gains` stay lists side by side, no list of groups: what the search promises, as `groups` and
// `BoundsOf`, and each law of it, is said over these lists.
#[derive(Clone, Copy, Debug, PartialEq, Eq)]
pub struct Bounds {
    pub gains: [usize; 16],
    pub total: usize,
}

// How many variables of u an edge between two places covers at most. No read needs a test, so that the compiler can
// count several edges at once.
fn gain_within(masks: &[u64], from: usize, to: usize, u: u64) -> usize
    requires { to ≤ length masks.now }
    ensures covers_at_most { CoversAtMost u (group masks.now from to) result }
    ensures upper_bound { result ≤ 64 }
{
    let all = edges::size(u);
    let mut least = all;
    for i in from..to {
        least = least.min(edges::size(u & masks[i]));
    }
    all - least
}

// Past the end of the list stands 0, an edge that covers all.
fn gain(masks: &[u64], from: usize, to: usize, u: u64) -> usize
    ensures covers_at_most { CoversAtMost u (group masks.now from to) result }
    ensures upper_bound { result ≤ 64 }
{
    if to <= masks.len() {
        return gain_within(masks, from, to, u);
    }
    edges::size(u)
}

pub(crate) fn find(masks: &[u64], starts: &[usize], ends: &[usize], n: usize, u: u64) -> Bounds
    requires { n ≤ 16 }
    ensures bounds_of { BoundsOf masks.now starts.now ends.now n u
        result.gains result.total }
    ensures gains_len { length result.gains ≡ 16 }
{
    let mut gains = [0usize; 16];
    let mut total = 0;
    for k in 0..n {
        let most = gain(masks, places::place(starts, k), places::place(ends, k), u);
        gains[k] = most;
        total += most;
    }
    Bounds { gains, total }
}
