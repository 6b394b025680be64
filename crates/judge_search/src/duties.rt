// The walk over the tree. Duties are subtrees that stand one after the other; bit by bit, from the lowest on, `duties`
// says what each must do: 1 takes the action, 0 rests. A last 1 stands above them. Each call of `seek` uses up a tree
// node. `takers` is the set of the automata that take the action so far.
ghost use Rattle.std.specs.Prelude.{◌≡◌, ◌≤◌, ◌<◌, ◌^◌};
ghost use Rattle.model.specs.Table.{bit};
ghost use Rattle.judge_search.specs.Found.{seek_at, parted_at, taken_by};

use table_tree::Found;

// A word holds no more duties after the first.
const DUTIES: u64 = 1 << 62;

// The step in question: its action, a bit for each automaton that keeps its location, and the variables that change.
#[derive(Clone, Copy, Debug, PartialEq, Eq)]
pub struct Step {
    pub action: u32,
    pub still: u32,
    pub changed: u64,
}

// Bit k of `still`: does automaton k keep its location?
#[tactic(auto, using(crate::proofs::FoundSteps::still_laws))]
fn is_still(still: u32, k: usize) -> bool
    ensures { result ≡ bit still k }
{
    if 31 < k {
        return false;
    }
    (still >> k) % 2 == 1
}

// What the search reads: a table's words, the automata's own synchronising sets, all candidates (automaton k's are
// `masks[first[k] .. first[k + 1]]`), and the step.
#[derive(Clone, Copy, Debug, PartialEq, Eq)]
pub struct Search<'a> {
    pub words: &'a [u32],
    pub sets: &'a [u64],
    pub masks: &'a [u64],
    pub first: &'a [usize],
    pub step: Step,
}

impl Search<'_> {
    // Can the duties from `at` on be done, within `left` nodes, so that all takers together mention every changed
    // variable?
    #[cycle(parted_seek_taken)]
    #[tactic(auto, using(crate::proofs::FoundSteps::seek_laws))]
    pub fn seek(&self, at: usize, left: usize, duties: u64, takers: u64) -> bool
        ensures { result ≡ seek_at self.now.words.now self.now.sets.now self.now.step.action self.now.masks.now
            self.now.first.now self.now.step.still self.now.step.changed left at duties takers }
    {
        if duties <= 1 {
            return judge_bounds::covered(self.masks, self.first, takers, self.step.changed);
        }
        if left == 0 {
            return false;
        }
        let f = table_tree::node_at(self.words, at);
        let n = left - 1;
        let rest = duties / 2;
        match f {
            Found::Par(next) => self.parted(next, n, duties, takers),
            Found::Syn(_, _, next) => self.seek(next, n, duties, takers),
            Found::Leaf(k, next) => {
                if duties % 2 != 0 {
                    return self.taken(next, n, rest, takers, k);
                }
                let still = is_still(self.step.still, k);
                if still {
                    return self.seek(next, n, rest, takers);
                }
                false
            }
            Found::Stray => false,
        }
    }

    // The first duty is a `par` whose sides stand from `at` on: both take the action, one does and the other rests, or
    // both rest.
    #[cycle(parted_seek_taken)]
    #[tactic(auto, using(crate::proofs::FoundSteps::parted_laws))]
    fn parted(&self, at: usize, n: usize, duties: u64, takers: u64) -> bool
        ensures { result ≡ parted_at self.now.words.now self.now.sets.now self.now.step.action
            (seek_at self.now.words.now self.now.sets.now self.now.step.action self.now.masks.now
            self.now.first.now self.now.step.still self.now.step.changed n) at duties takers }
    {
        if DUTIES <= duties / 2 {
            return false;
        }
        let pair = duties / 2 * 4;
        if duties % 2 == 0 {
            return self.seek(at, n, pair, takers);
        }
        let here = table_tree::in_set(self.words, at, self.sets, self.step.action);
        let right = table_tree::skip(self.words, at);
        let there = table_tree::in_set(self.words, right, self.sets, self.step.action);
        if here & there {
            return self.seek(at, n, pair + 3, takers);
        }
        if there {
            return self.seek(at, n, pair + 2, takers);
        }
        let alone = self.seek(at, n, pair + 1, takers);
        if here | alone {
            return alone;
        }
        self.seek(at, n, pair + 2, takers)
    }

    // The first duty is that automaton k takes the action; the others are `duties`, and stand from `at` on. Takers come
    // in rising order.
    #[cycle(parted_seek_taken)]
    #[tactic(auto, using(crate::proofs::FoundSteps::taken_laws, table_tree::proofs::SetLaws::single_below))]
    fn taken(&self, at: usize, n: usize, duties: u64, takers: u64, k: usize) -> bool
        ensures { result ≡ taken_by
            (seek_at self.now.words.now self.now.sets.now self.now.step.action self.now.masks.now
            self.now.first.now self.now.step.still self.now.step.changed n) at duties k takers }
    {
        if model::Model::AUTOMATA <= k {
            return false;
        }
        let one = table_tree::single(k as u32);
        if one <= takers {
            return false;
        }
        self.seek(at, n, duties, takers + one)
    }
}
