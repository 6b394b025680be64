// The bound by weights: no edge of a taker covers more, as a weight, than its best one. If the best ones of all takers
// together weigh less than what is to be covered, there is no cover. Weights that show it are looked for.
ghost use Rattle.std.specs.Prelude.{◌≡◌, true, false, ◌≤◌, ◌<◌, max, length};
ghost use Rattle.judge_cover.specs.Cover.{coverable, groups_of, group};
ghost use Rattle.judge_bounds.specs.Bounds.{TakesAtMost, TakerTakes};

use crate::balance::{self};
use crate::edges::Takers;
use crate::weights::{self};
use judge_cover::{mask_at, place};

// How often the weights are changed.
const ROUNDS: usize = 256;

// The most that an edge covers, as a weight, and what that edge leaves.
#[derive(Clone, Copy, Debug, PartialEq, Eq)]
pub struct Choice {
    pub took: usize,
    pub rest: u64,
}

// What the best edges cover together, what there was, and what none of them mentions.
#[derive(Clone, Copy, Debug, PartialEq, Eq)]
pub struct Tally {
    pub total: usize,
    pub all: usize,
    pub missed: u64,
}

// The one that covers more.
fn better(c: Choice, took: usize, rest: u64) -> Choice
    ensures { result.took ≡ max c.took took }
{
    if c.took < took {
        return Choice { took, rest };
    }
    c
}

// The best of the edges between two places.
fn best(masks: &[u64], from: usize, to: usize, u: u64, weights: &[u16; 64]) -> Choice
    ensures takes_at_most { TakesAtMost weights.now u (group masks.now from to) result.took }
    ensures took_bound { result.took ≤ 8388480 }
{
    let mut c = Choice { took: 0, rest: u };
    for i in from..to {
        let rest = u & mask_at(masks, i);
        c = better(c, weights::weigh(weights, u - rest), rest);
    }
    c
}

// The best of automaton k's edges, if it takes the action; if not, nothing is covered.
fn best_of(t: &Takers<'_>, k: usize, u: u64, weights: &[u16; 64]) -> Choice
    requires k_bound { k < 16 }
    ensures taker_takes { TakerTakes t.now.masks.now t.now.first.now t.now.set k
        weights.now u result.took }
    ensures took_bound { result.took ≤ 8388480 }
{
    if t.takes(k) {
        return best(
            t.masks,
            place(t.first, k),
            place(t.first, k + 1),
            u,
            weights,
        );
    }
    Choice { took: 0, rest: u }
}

// One round over all takers. `next` loses a step where a best edge mentions the variable.
#[tactic(auto, using(crate::proofs::RoundLaws::summing_laws))]
fn round(t: &Takers<'_>, u: u64, weights: &[u16; 64], next: &mut [u16; 64], step: u16) -> Tally
    ensures next_len_2 { length next.new ≡ 64 }
    ensures u_value { result.total < result.all
        → coverable (groups_of t.now.masks.now t.now.first.now t.now.set) u ≡ false }
{
    let all = weights::weigh(weights, u);
    let mut total = 0;
    let mut missed = u;
    for k in 0..16 {
        let c = best_of(t, k, u, weights);
        total += c.took;
        missed &= c.rest;
        balance::lighten(next, u & !c.rest, step);
    }
    Tally { total, all, missed }
}

// Do some weights show that there is no cover?
pub(crate) fn short(t: &Takers<'_>, u: u64) -> bool
    ensures { result ≡ true → coverable (groups_of t.now.masks.now t.now.first.now t.now.set) u ≡ false }
{
    let mut weights = [128u16; 64];
    for done in 0..ROUNDS {
        let step = step_after(done);
        let mut next = balance::heavier(&weights, step);
        let r = round(t, u, &weights, &mut next, step);
        if r.total < r.all {
            return true;
        }
        if r.missed == 0 {
            return false;
        }
        weights = next;
    }
    false
}

// Large steps at first, and small ones in the end.
fn step_after(done: usize) -> u16
    ensures { result ≤ 1000 }
{
    1 + (ROUNDS.saturating_sub(done) / 16) as u16
}
