// A table that is being filled, word by word. One that is full stays as it is.
ghost use Rattle.std.specs.Prelude.{◌≡◌, [], ◌∷◌};
ghost use Rattle.merge_append.specs.Append.{narrow, Filled};
ghost use Rattle.merge_append.specs.Runs.{run, nodes_at};

use model::Model;

// Its words, and how many of them stand.
#[derive(Drop)]
pub struct Filling {
    pub words: [u32; Model::WORDS],
    pub length: usize,
}

// A number as a word; its low 32 bits.
#[tactic(auto, unfolding(crate::specs::Append::narrow))]
pub fn narrow(x: usize) -> u32
    ensures { result ≡ narrow x }
{
    (x % 4294967296) as u32
}

impl Filling {
    // One word.
    pub fn put(&mut self, x: usize)
        ensures { Filled (x ∷ []) self.old self.new }
    {
        self.length = table_append::append_one(&mut self.words, self.length, narrow(x));
    }

    // Some words, one after the other.
    pub fn put_all(&mut self, xs: &[usize])
        ensures { Filled xs.now self.old self.new }
    {
        for x in xs {
            self.put(*x);
        }
    }

    // So many words of another table, from a place on.
    pub fn copy(&mut self, t: &[u32], from: usize, count: usize)
        ensures { Filled (run t.now from count) self.old self.new }
    {
        let mut place = from;
        for _ in 0..count {
            self.put(table_places::word(t, place));
            place = table_places::step(t, place, 1);
        }
    }

    // The nodes of a predicate of another table, without their count.
    pub fn nodes(&mut self, t: &[u32], at: usize)
        ensures { Filled (nodes_at t.now at) self.old self.new }
    {
        self.copy(t, table_places::nodes_at(t, at), table_places::word(t, at));
    }
}
