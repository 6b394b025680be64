// Edges as sets of variables: bit K is set where the update does not mention variable K.
ghost use Rattle.std.specs.Prelude.{◌≡◌, ◌≤◌, ◌<◌, length};
ghost use Rattle.std.specs.Int.Count.{ones};
ghost use Rattle.judge_cover.specs.Cover.{within, left_by, dominated, skipped_at, worth, named_in, spares};
ghost use Rattle.judge_cover.specs.Steps.{SiftedTo};

use crate::places::{self};

// How many variables there are in a set.
pub fn size(u: u64) -> usize
    ensures { result ≡ ones u }
{
    u.count_ones() as usize
}

// Is every variable of w in u?
#[tactic(auto, using(crate::proofs::CodeLaws::inside_is))]
pub fn inside(w: u64, u: u64) -> bool
    ensures { result ≡ within w u }
{
    (w & u) == w
}

// What edge i leaves uncovered of u.
#[tactic(auto, using(crate::proofs::CodeLaws::left_is))]
pub(crate) fn left_by(masks: &[u64], u: u64, i: usize) -> u64
    ensures { result ≡ left_by masks.now u i }
{
    u & places::mask_at(masks, i)
}

// Is edge i skipped for edge j, which leaves no more? Of two that leave the same the first stays.
#[tactic(auto, using(crate::proofs::CodeLaws::dominated_is, crate::proofs::CodeLaws::left_is))]
fn dominated(masks: &[u64], u: u64, i: usize, j: usize) -> bool
    requires { (i < length masks.now) × (j < length masks.now) }
    ensures { result ≡ dominated masks.now u i j }
{
    let v = u & masks[i];
    let w = u & masks[j];
    inside(w, v) & ((j < i) | !inside(v, w))
}

#[tactic(auto, using(crate::proofs::CodeLaws::skipped_laws))]
fn skipped(masks: &[u64], from: usize, to: usize, u: u64, i: usize) -> bool
    requires { (i < length masks.now) × (to ≤ length masks.now) }
    ensures { result ≡ skipped_at masks.now from to u i }
{
    for j in from..to {
        if dominated(masks, u, i, j) {
            return true;
        }
    }
    false
}

// Is edge i worth a try for the variable v? It mentions v, and no other of its group leaves less.
#[tactic(auto, using(crate::proofs::CodeLaws::worth_laws))]
pub(crate) fn worth(masks: &[u64], from: usize, to: usize, u: u64, v: u32, i: usize) -> bool
    requires { (i < length masks.now) × (to ≤ length masks.now) }
    ensures { result ≡ worth masks.now from to u v i }
{
    if table_tree::in_word(masks[i], v) {
        return false;
    }
    !skipped(masks, from, to, u, i)
}

// Does an edge between two places mention v?
#[tactic(auto, using(crate::proofs::CodeLaws::names_laws))]
pub(crate) fn names(masks: &[u64], from: usize, to: usize, v: u32) -> bool
    requires { to ≤ length masks.now }
    ensures { result ≡ named_in masks.now from to v }
{
    for i in from..to {
        if !table_tree::in_word(masks[i], v) {
            return true;
        }
    }
    false
}

// Drops the edges between two places that mention v: the others move to the front. The place after them.
#[tactic(auto, using(crate::proofs::GroupLaws::dropping_laws))]
pub(crate) fn drop_named(masks: &mut [u64], from: usize, to: usize, v: u32) -> usize
    requires { (from ≤ to) × (to ≤ length masks.old) × (to ≤ 512) }
    ensures { SiftedTo (spares v) masks.old from to masks.old masks.new
        from result }
{
    let mut next = from;
    for i in from..to {
        let r = masks[i];
        masks[next] = r;
        next += usize::from(table_tree::in_word(r, v));
    }
    next
}
