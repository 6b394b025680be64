// The search: each call of `seek` has a group less to choose from.
// Stays a list of parameters: `branch` writes to `kept` and `ends` between the calls that it lends them to, so a struct
// of the slices would be made anew for each call, in frames that stand 16 deep.
ghost use Rattle.std.specs.Prelude.{◌≡◌, true, ◌≤◌, ◌<◌, length};
ghost use Rattle.model.specs.Table.{bit};
ghost use Rattle.judge_cover.specs.Cover.{coverable, groups};
ghost use Rattle.judge_cover.specs.Steps.{Laid, Spans, BoundsOf, through_at};

use crate::choice::{self};
use crate::edges::{self};
use crate::narrow::{self};
use crate::places::{self};

// Can one edge of each of the n groups be chosen so that nothing of u is left? No edge of group k covers more than
// `gains[k]` of u, and `total` is the sum of these.
#[cycle(branch_narrowed_seek_tried)]
#[tactic(auto, using(crate::proofs::SeekLaws::seek_laws))]
pub(crate) fn seek(
    masks: &[u64],
    starts: &[usize],
    ends: &[usize],
    gains: &[usize],
    n: usize,
    u: u64,
    total: usize,
) -> bool
    requires n_bound { n ≤ 16 }
    requires laid { Laid starts.now ends.now n (length masks.now) }
    requires laid_2 { Laid starts.now ends.now n 512 }
    requires bounds_of { BoundsOf masks.now starts.now ends.now n u gains.now total }
    ensures { result ≡ coverable (groups masks.now starts.now ends.now n) u }
{
    if u == 0 {
        return true;
    }
    if total < edges::size(u) {
        return false;
    }
    // to clear a list takes time, so most calls have a short one
    if places::short(starts, ends, n) {
        let mut few = [0u64; 128];
        return narrowed(masks, starts, ends, gains, n, u, total, &mut few);
    }
    let mut kept = [0u64; 512];
    narrowed(masks, starts, ends, gains, n, u, total, &mut kept)
}

// The same, with the useful edges alone.
#[cycle(branch_narrowed_seek_tried)]
#[tactic(auto, using(crate::proofs::SeekLaws::narrowed_short))]
fn narrowed(
    masks: &[u64],
    starts: &[usize],
    ends: &[usize],
    gains: &[usize],
    n: usize,
    u: u64,
    total: usize,
    kept: &mut [u64],
) -> bool
    requires n_bound { (n ≤ 16) × (0 < u) }
    requires laid { Laid starts.now ends.now n (length masks.now) }
    requires laid_2 { Laid starts.now ends.now n 512 }
    requires spans { (Spans starts.now ends.now n (length kept.old)) × (length kept.old ≤ 512) }
    requires bounds_of { BoundsOf masks.now starts.now ends.now n u gains.now total }
    ensures { result ≡ coverable (groups masks.now starts.now ends.now n) u }
{
    let mut from = [0usize; 16];
    let mut to = [0usize; 16];
    let mut less = [0usize; 16];
    let narrowed = narrow::narrow(
        masks, starts, ends, gains, n, u, total, kept, &mut from, &mut to, &mut less,
    );
    let Some(t) = narrowed else { return false };
    branch(kept, &from, &mut to, &less, n, u, t)
}

// The same, by a variable that is not covered: some group has an edge that mentions it. Edges that have failed are
// dropped, so that the later groups are not tried with them again.
#[cycle(branch_narrowed_seek_tried)]
#[tactic(auto, using(crate::proofs::SeekLaws::branching_laws))]
fn branch(
    kept: &mut [u64],
    starts: &[usize],
    ends: &mut [usize; 16],
    gains: &[usize],
    n: usize,
    u: u64,
    total: usize,
) -> bool
    requires n_bound { (n ≤ 16) × (0 < u) }
    requires kept_len_bound { (length kept.old ≤ 512) × (length ends.old ≡ 16) }
    requires laid { Laid starts.now ends.old n (length kept.old) }
    requires bounds_of { BoundsOf kept.old starts.now ends.old n u gains.now total }
    ensures { result ≡ coverable (groups kept.old starts.now ends.old n) u }
{
    let v = choice::choose(kept, places::last(ends, n), u);
    for k in 0..n {
        let from = places::place(starts, k);
        let to = places::place(ends, k);
        if !edges::names(kept, from, to, v) {
            continue;
        }
        if tried(kept, starts, ends, gains, n, u, total, k, v) {
            return true;
        }
        let end = edges::drop_named(kept, from, to, v);
        if end <= from {
            return false;
        }
        ends[k] = end;
    }
    false
}

// Can an edge of group k that mentions v be chosen, and an edge of each of the other groups?
#[cycle(branch_narrowed_seek_tried)]
#[tactic(auto, using(crate::proofs::SeekLaws::tried_laws))]
fn tried(
    masks: &[u64],
    starts: &[usize],
    ends: &[usize],
    gains: &[usize],
    n: usize,
    u: u64,
    total: usize,
    k: usize,
    v: u32,
) -> bool
    requires n_bound { (n ≤ 16) × (k < n) }
    requires v_value { bit u v ≡ true }
    requires laid { Laid starts.now ends.now n (length masks.now) }
    requires laid_2 { Laid starts.now ends.now n 512 }
    requires bounds_of { BoundsOf masks.now starts.now ends.now n u gains.now total }
    ensures { result ≡ through_at masks.now starts.now ends.now n u v k }
{
    let from = places::without(starts, k);
    let to = places::without(ends, k);
    let less = places::without(gains, k);
    let rest = total - places::place(gains, k);
    let a = places::place(starts, k);
    let b = places::place(ends, k);
    for i in a..b {
        if edges::worth(masks, a, b, u, v, i) {
            let left = edges::left_by(masks, u, i);
            if seek(masks, &from, &to, &less, n - 1, left, rest) {
                return true;
            }
        }
    }
    false
}
