// The bound by parts: where no edge mentions variables of two parts, each part needs edges of its own, and at least as
// many as its size and the most that an edge covers of it say.
ghost use Rattle.std.specs.Prelude.{◌≡◌, true, false, ◌+◌, ◌≤◌, ◌<◌, IfSome, length};
ghost use Rattle.std.specs.Int.Bits.{bit_and};
ghost use Rattle.std.specs.Int.Count.{ones};
ghost use Rattle.judge_cover.specs.Cover.{coverable, groups_of, group, within};
ghost use Rattle.judge_bounds.specs.Bounds.{pieces, Sound, AtLeast};
ghost use Rattle.judge_bounds.specs.Bounds.{EdgeFitted, GroupFitted, TakerFitted, TakersFit};

use crate::edges::Takers;
use judge_cover::{inside, mask_at, place, size};

// What of `rest` stays outside the part when an edge joins it: one that mentions a variable of the part brings its
// others in.
fn spread(rest: u64, out: u64, edge: u64) -> u64 {
    let part = rest & !out;
    if (part & edge) == part {
        return out;
    }
    out & edge
}

// The same with all edges between two places. Nothing is promised: what comes out is tested by `most`.
fn spread_by(masks: &[u64], from: usize, to: usize, rest: u64, out: u64) -> u64 {
    let mut o = out;
    for i in from..to {
        o = spread(rest, o, mask_at(masks, i));
    }
    o
}

fn spread_by_all(t: &Takers<'_>, rest: u64, out: u64) -> u64 {
    let mut o = out;
    for k in 0..16 {
        if t.takes(k) {
            o = spread_by(t.masks, place(t.first, k), place(t.first, k + 1), rest, o);
        }
    }
    o
}

fn without_first(set: u64) -> u64 {
    set & set.saturating_sub(1)
}

// What of `rest` no chain of edges joins with its first variable.
fn apart(t: &Takers<'_>, rest: u64) -> u64 {
    let mut out = without_first(rest);
    for _ in 0..64 {
        let next = spread_by_all(t, rest, out);
        if next == out {
            break;
        }
        out = next;
    }
    out
}

// How many variables of a part an edge covers.
fn gain(part: u64, edge: u64) -> usize
    ensures part_bound { ones part ≤ result + ones (bit_and part edge) }
    ensures upper_bound { result ≤ 64 }
{
    size(part).saturating_sub(size(part & edge))
}

// The larger of m and what the edge covers of the part; none if it mentions variables of the part and others outside.
fn fit(part: u64, out: u64, edge: u64, m: usize) -> Option<usize>
    ensures { EdgeFitted part out edge m result }
{
    if (part & edge) == part {
        return Some(m);
    }
    if (out & edge) != out {
        return None;
    }
    Some(m.max(gain(part, edge)))
}

// The same with all edges between two places.
fn fit_all(
    masks: &[u64],
    from: usize,
    to: usize,
    part: u64,
    out: u64,
    least: usize,
) -> Option<usize>
    ensures { GroupFitted part out (group masks.now from to) least result }
{
    let mut m = least;
    for i in from..to {
        m = fit(part, out, mask_at(masks, i), m)?;
    }
    Some(m)
}

// The same with automaton k's edges, if it takes the action.
fn fit_of(t: &Takers<'_>, k: usize, part: u64, out: u64, least: usize) -> Option<usize>
    requires { k < 16 }
    ensures { TakerFitted t.now.masks.now t.now.first.now t.now.set k part out least result }
{
    if t.takes(k) {
        return fit_all(
            t.masks,
            place(t.first, k),
            place(t.first, k + 1),
            part,
            out,
            least,
        );
    }
    Some(least)
}

// How many variables of the part an edge covers at most, and no less than 1; none where one mentions variables of the
// part and others outside.
#[tactic(auto, using(crate::proofs::PartLaws::spreading_laws))]
fn most(t: &Takers<'_>, part: u64, out: u64) -> Option<usize>
    ensures takers_fit { IfSome result (TakersFit t.now.masks.now t.now.first.now t.now.set part out) }
    ensures lower_bound { IfSome result (λ m. 0 < m) }
    ensures upper_bound { IfSome result (λ m. m ≤ 64) }
{
    let mut m = 1;
    for k in 0..16 {
        m = fit_of(t, k, part, out, m)?;
    }
    Some(m)
}

// How many edges a part needs, if none covers more than m of it.
#[tactic(auto, using(crate::proofs::PartLaws::pieces_is, crate::proofs::PartLaws::pieces_few))]
fn pieces(part: u64, m: usize) -> usize
    requires { (0 < m) × (m ≤ 64) }
    ensures value { result ≡ pieces m part }
    ensures upper_bound { result ≤ 128 }
{
    size(part).div_ceil(m)
}

// Are the part and what is outside it in the rest, and is something taken off?
fn sound(rest: u64, part: u64, out: u64) -> bool
    ensures { result ≡ true → Sound rest part out }
{
    inside(part, rest) & inside(out, rest) & (out < rest)
}

// How many edges are needed to cover u, by its parts. It stops where there are more than any takers have.
#[tactic(auto, using(crate::proofs::PartLaws::needing_laws))]
fn needed(t: &Takers<'_>, u: u64) -> usize
    ensures { AtLeast t.now.masks.now t.now.first.now t.now.set u result }
{
    let mut need = 0;
    let mut rest = u;
    while rest != 0 && need <= 16 {
        let out = apart(t, rest);
        let part = rest & !out;
        let Some(m) = most(t, part, out) else { break };
        if !sound(rest, part, out) {
            break;
        }
        need += pieces(part, m);
        rest = out;
    }
    need
}

// Do the parts need more edges than there are takers?
#[tactic(auto, using(crate::proofs::PartLaws::short_is))]
pub(crate) fn short(t: &Takers<'_>, u: u64) -> bool
    ensures { result ≡ true → coverable (groups_of t.now.masks.now t.now.first.now t.now.set) u ≡ false }
{
    t.count() < needed(t, u)
}
