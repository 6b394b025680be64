// The edges of use alone, copied to a list of their own; and new bounds, by one pass over the edges.
ghost use Rattle.std.specs.Prelude.{◌≡◌, ◌+◌, ◌≤◌, length};
ghost use Rattle.judge_cover.specs.Cover.{group};
ghost use Rattle.judge_cover.specs.Steps.{Laid, Spans, CoversAtMost, BoundsOf, Passed, NarrowedTo};

use crate::edges::{self};
use crate::places::{self};

// The place after a group's useful edges, how many variables an edge of it covers at most, and the total with that.
#[derive(Clone, Copy, Debug, PartialEq, Eq)]
pub struct Sifted {
    pub next: usize,
    pub most: usize,
    pub total: usize,
}

// Copies the useful edges between two places, from the place `count` on.
#[tactic(auto, using(crate::proofs::GroupLaws::passing_laws))]
fn sift(
    masks: &[u64],
    from: usize,
    to: usize,
    u: u64,
    total: usize,
    gain: usize,
    kept: &mut [u64],
    count: usize,
) -> Sifted
    requires from_le_to { (from ≤ to) × (to ≤ length masks.now) × (to ≤ 512) }
    requires to_bound { (count + to ≤ from + length kept.old) × (length kept.old ≤ 512) }
    requires gain_le_total { gain ≤ total }
    requires covers_at_most { CoversAtMost u (group masks.now from to) gain }
    ensures { Passed masks.now from to u total gain kept.old kept.new count
        result.next result.most result.total }
{
    let others = total - gain;
    let all = edges::size(u);
    let mut least = all;
    let mut next = count;
    for i in from..to {
        let r = masks[i];
        kept[next] = r;
        let left = edges::size(u & r);
        next += usize::from(left <= others);
        least = least.min(left);
    }
    let most = all - least;
    Sifted {
        next,
        most,
        total: others + most,
    }
}

// Does so with all groups, and says what they then cover at most; none where they cannot cover u.
pub(crate) fn narrow(
    masks: &[u64],
    from: &[usize],
    to: &[usize],
    gains: &[usize],
    n: usize,
    u: u64,
    total: usize,
    kept: &mut [u64],
    starts: &mut [usize; 16],
    ends: &mut [usize; 16],
    less: &mut [usize; 16],
) -> Option<usize>
    requires n_bound { n ≤ 16 }
    requires starts_len { (length starts.old ≡ 16) × (length ends.old ≡ 16) × (length less.old ≡ 16) }
    requires laid { Laid from.now to.now n (length masks.now) }
    requires laid_2 { Laid from.now to.now n 512 }
    requires spans { (Spans from.now to.now n (length kept.old)) × (length kept.old ≤ 512) }
    requires bounds_of { BoundsOf masks.now from.now to.now n u gains.now total }
    ensures { NarrowedTo masks.now from.now to.now n u kept.old
        kept.new starts.new ends.new less.new result }
{
    let all = edges::size(u);
    let mut t = total;
    let mut count = 0;
    for k in 0..n {
        let gain = places::place(gains, k);
        let a = places::place(from, k);
        let b = places::place(to, k);
        let s = sift(masks, a, b, u, t, gain, kept, count);
        let next = s.next;
        if next <= count {
            return None;
        }
        t = s.total;
        if t < all {
            return None;
        }
        starts[k] = count;
        ends[k] = next;
        less[k] = s.most;
        count = next;
    }
    Some(t)
}
