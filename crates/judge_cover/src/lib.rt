// Can the automata that take an action each choose one of their edges so that every changed variable is mentioned?
// What is decided stands in specs/Cover.antt; why the search decides it, in proofs/CoverLaws.antt and
// proofs/Branching.antt.
#![tactic(auto)]

mod bounds;
mod choice;
mod edges;
mod narrow;
mod places;
mod plain;
mod seek;

ghost use Rattle.std.specs.Prelude.{◌≡◌};
ghost use Rattle.judge_cover.specs.Cover.{coverable, groups_of};

pub use edges::{inside, size};
pub use places::{mask_at, place};

// Bit k of `takers` says that automaton k takes the action; its edges are `masks[first[k] .. first[k + 1]]`, each the
// set of the variables that its update does not mention.
#[tactic(auto, using(crate::proofs::SeekLaws::covered_laws))]
pub fn covered(masks: &[u64], first: &[usize], takers: u64, changed: u64) -> bool
    ensures { result ≡ coverable (groups_of masks.now first.now takers) changed }
{
    let mut starts = [0usize; 16];
    let mut ends = [0usize; 16];
    let n = places::groups(first, takers, &mut starts, &mut ends);
    if !places::all_filled(&starts, &ends, n) {
        return false;
    }
    if !places::laid(masks.len(), &starts, &ends, n) {
        return plain::cover(masks, &starts, &ends, 0, n, changed);
    }
    let b = bounds::find(masks, &starts, &ends, n, changed);
    seek::seek(masks, &starts, &ends, &b.gains, n, changed, b.total)
}
