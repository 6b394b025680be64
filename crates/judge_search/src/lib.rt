// The search of the step judge for automata that can take a step. What it decides stands in specs/Search.antt, how it
// is told in specs/Found.antt.
#![tactic(auto)]

mod duties;

ghost use Rattle.std.specs.Prelude.{◌≡◌};
ghost use Rattle.judge_search.specs.Found.{found_in};

use crate::duties::Search;
pub use duties::Step;

// Can the tree's automata take the action so that every changed variable is mentioned? The tree's nodes stand from `at`
// on; `sets` has the automata's own synchronising sets; automaton k's candidates are `masks[first[k] .. first[k + 1]]`.
#[tactic(auto, using(crate::proofs::FoundSteps::found_by))]
pub fn found(
    words: &[u32],
    at: usize,
    sets: &[u64],
    masks: &[u64],
    first: &[usize],
    step: Step,
) -> bool
    ensures { result ≡ found_in words.now at sets.now step.action masks.now
        first.now step.still step.changed }
{
    let search = Search {
        words,
        sets,
        masks,
        first,
        step,
    };
    search.seek(at, model::Tree::NODES, 3, 0)
}
