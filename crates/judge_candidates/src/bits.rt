// Sets of variables and of automata: bit K of a word is set where K is in the set.
#![tactic(auto, using(crate::proofs::BitsLaws::bits_laws, table_tree::proofs::SetLaws::single_below))]

ghost use Rattle.std.specs.Prelude.{◌≡◌, ◌^◌, ◌<◌};
ghost use Rattle.judge_candidates.specs.Bits.{with_bit, differs, changed_bits, agrees, still_bits};

// k put into a set of smaller numbers, if the test says so.
fn with_bit(set: u64, k: usize, test: bool) -> u64
    requires { (k < 64) × (set < 2 ^ k) }
    ensures { result ≡ with_bit set k test }
{
    if test {
        return table_tree::single(k as u32) + set;
    }
    set
}

// Variable k has another value in the one list than in the other.
pub fn differs(before: &[i32], after: &[i32], k: usize) -> bool
    ensures { result ≡ differs before.now after.now k }
{
    !arithmetic::same(arithmetic::value(before, k), arithmetic::value(after, k))
}

// The variables whose values differ.
pub fn changed(before: &[i32], after: &[i32]) -> u64
    ensures { result ≡ changed_bits before.now after.now }
{
    let variables = table_places::at_most(model::Model::VARIABLES, before.len());
    let mut set: u64 = 0;
    for k in 0..variables {
        set = with_bit(set, k, differs(before, after, k));
    }
    set
}

fn agrees(old: &[u32], new: &[u32], k: usize) -> bool
    ensures { result ≡ agrees old.now new.now k }
{
    table_places::word(old, k) == table_places::word(new, k)
}

// The automata that keep their location.
pub fn still(old: &[u32], new: &[u32]) -> u32
    ensures { result ≡ still_bits old.now new.now }
{
    let automata = table_places::at_most(model::Model::AUTOMATA, old.len());
    let mut set: u64 = 0;
    for k in 0..automata {
        set = with_bit(set, k, agrees(old, new, k));
    }
    set as u32
}
