// The takers' edges.
ghost use Rattle.std.specs.Prelude.{◌≡◌, ◌≤◌, length};
ghost use Rattle.model.specs.Table.{bit};
ghost use Rattle.judge_bounds.specs.Bounds.{takers_to};

use judge_cover::{place, size};

// From so many takers and edges on a count is worth its time.
const TAKERS: usize = 6;

const EDGES: usize = 48;

// The set of the automata that take an action, and all edges: automaton k's are `masks[first[k] .. first[k + 1]]`.
#[derive(Clone, Copy, Debug, PartialEq, Eq)]
pub(crate) struct Takers<'a> {
    pub(crate) masks: &'a [u64],
    pub(crate) first: &'a [usize],
    pub(crate) set: u64,
}

impl<'a> Takers<'a> {
    // Does automaton k take the action?
    pub(crate) fn takes(&self, k: usize) -> bool
        requires { k ≤ 16 }
        ensures { result ≡ bit self.now.set k }
    {
        table_tree::in_word(self.set, k as u32)
    }

    // How many automata take it.
    pub(crate) fn count(&self) -> usize
        ensures { result ≡ length (takers_to self.now.set 16) }
    {
        size(self.set & 0xffff)
    }

    // How many edges automaton k has, 0 if it does not take the action; 512 at most.
    fn choices(&self, k: usize) -> usize
        requires { k ≤ 16 }
        ensures { result ≤ 512 }
    {
        if !self.takes(k) {
            return 0;
        }
        place(self.first, k + 1)
            .saturating_sub(place(self.first, k))
            .min(512)
    }

    // Have many takers many edges, and none of them none? Few takers, as on most sheets, are told at once.
    pub(crate) fn many(&self) -> bool {
        if size(self.set) < TAKERS {
            return false;
        }
        let mut filled = 0;
        let mut all = 0;
        for k in 0..16 {
            let some = self.choices(k);
            filled += usize::from(0 < some);
            all += some;
        }
        (EDGES <= all) & (filled == self.count())
    }
}
