// The synchronising set of the whole, from the automata's own.
ghost use Rattle.std.specs.Prelude.{◌≡◌, ◌≤◌};
ghost use Rattle.merge_append.specs.Append.{Filled};
ghost use Rattle.merge_words.specs.Sync.{is_shared, shifted, bits_from, sets_of, words_of};

use merge_append::Filling;
use table_places::Layout;

// Each automaton's own set, and the whole's in two words: actions 0 to 31, and 32 to 63.
#[derive(Clone, Copy, Debug, PartialEq, Eq)]
pub struct Sets {
    pub own: [u64; 16],
    pub low: u32,
    pub high: u32,
}

// Is the action, from 1 to A, in the whole's set?
fn shared(t: &[u32], x: Layout, own: &[u64], action: u32) -> bool
    ensures { result ≡ is_shared t.now x own.now action }
{
    if action == 0 {
        return false;
    }
    if x.actions < arithmetic::index(action) {
        return false;
    }
    let root = table_places::nodes_at(t, x.tree);
    table_tree::in_set(t, root, own, action)
}

// A bit after the 31 bits of a word.
fn shifted(word: u32, b: bool) -> u32
    ensures { result ≡ shifted word b }
{
    word % 2147483648 * 2 + u32::from(b)
}

// The bits of the 32 actions from one on.
fn bits(t: &[u32], x: Layout, own: &[u64], from: u32) -> u32
    requires { from ≤ 32 }
    ensures { result ≡ bits_from (is_shared t.now x own.now) from 32 0 }
{
    let mut word = 0;
    for i in (0..32).rev() {
        word = shifted(word, shared(t, x, own, from + i));
    }
    word
}

// The synchronising sets: each automaton's own, and the whole's.
pub fn gather(t: &[u32], x: Layout) -> Sets
    ensures { result ≡ sets_of t.now x }
{
    let own = table_places::own_sets(t, x);
    let low = bits(t, x, &own, 0);
    let high = bits(t, x, &own, 32);
    Sets { own, low, high }
}

// The whole's set in two words.
pub fn write(s: Sets, out: &mut Filling)
    ensures { Filled (words_of s) out.old out.new }
{
    out.put_all(&[arithmetic::index(s.low), arithmetic::index(s.high)]);
}
