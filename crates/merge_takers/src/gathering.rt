// The takers of all merged edges, gathered once: sixteen places for each merged edge, where the edges stand that the
// automata take, 0 for an automaton that takes none.
ghost use Rattle.std.specs.Prelude.{◌≡◌};
ghost use Rattle.merge_append.specs.Append.{Filled};
ghost use Rattle.merge_append.specs.Runs.{run};
ghost use Rattle.merge_takers.specs.Moves.{places_of, moves_in};
ghost use Rattle.merge_takers.specs.Gather.{takers_from, takers_under, takers_in, gathered, gathered_length};

use crate::moves::{self, Composition};
use merge_append::Filling;
use model::Model;
use table_places::Layout;

impl Composition<'_> {
    // Those of move k of the planned action.
    fn gather_move(self, action: usize, cells: &[u32; 192], k: u32, list: &mut Filling)
        ensures { Filled (places_of self.entry.words.now self.entry.layout cells.now action k)
            list.old list.new }
    {
        let places = self.places(action, cells, k);
        list.put_all(&places);
    }

    // Those of the first `count` moves of the planned action.
    fn gather_moves(self, action: usize, cells: &[u32; 192], count: u32, list: &mut Filling)
        ensures { Filled (takers_from self.entry.words.now self.entry.layout cells.now action 0 count)
            list.old list.new }
    {
        for k in 0..count {
            self.gather_move(action, cells, k, list);
        }
    }

    // Those of an action.
    fn gather_action(self, action: u32, list: &mut Filling)
        ensures { Filled (takers_under self.entry.words.now self.entry.layout self.entry.own.now action)
            list.old list.new }
    {
        let p = self.plan(action);
        self.gather_moves(arithmetic::index(action), &p.cells, p.count, list);
    }

    // Those of all actions.
    fn gather_all(self, list: &mut Filling)
        ensures { Filled (takers_in self.entry.words.now self.entry.layout self.entry.own.now)
            list.old list.new }
    {
        for action in 0..=moves::last_action(self.layout) {
            self.gather_action(action, list);
        }
    }
}

// How many merged edges there are; and where their takers stand, in the lent list, unless there are too many.
pub fn gather(t: &[u32], x: Layout, own: &[u64; 16], list: &mut Filling) -> usize
    ensures value { result ≡ moves_in t.now x own.now }
    ensures list_after { list.new.words ≡ gathered t.now x own.now list.old.words }
    ensures length_after { list.new.length ≡ gathered_length t.now x own.now list.old.length }
{
    let composition = Composition {
        words: t,
        layout: x,
        own,
    };
    let count = composition.all_moves();
    if Model::EDGES < count {
        return count;
    }
    list.length = 0;
    composition.gather_all(list);
    count
}

// The sixteen places of the edge whose takers stand at a place of the list.
pub fn places_at(list: &[u32], at: usize) -> [usize; 16]
    ensures { result ≡ run list.now at 16 }
{
    let mut places = [0usize; 16];
    let mut place = at;
    for held in &mut places {
        *held = table_places::word(list, place);
        place = table_places::step(list, place, 1);
    }
    places
}
