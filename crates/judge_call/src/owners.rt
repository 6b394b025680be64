// Does the environment leave alone what the automata own? A step need not ask: row 51 lets an edge write only what its
// automaton owns.
ghost use Rattle.std.specs.Prelude.{◌≡◌};
ghost use Rattle.judge_call.specs.Owners.{keeps_at, owned_keep_at};

use judge_rows::State;
use table_places::Sheet;

// Variable k has no owner, or the same value in both lists.
#[tactic(auto, using(crate::proofs::OwnerLaws::keeps_is))]
fn keeps(words: &[u32], before: &[i32], after: &[i32], k: usize) -> bool
    ensures { result ≡ keeps_at words.now before.now after.now k }
{
    let owner = table_places::owner(words, table_places::range_at(words, k));
    (owner == 0) | !judge_candidates::differs(before, after, k)
}

// Each variable that has an owner keeps its value from s to t.
pub(crate) fn owned_keep(sheet: &Sheet<'_>, s: State, t: State) -> bool
    ensures { result ≡ owned_keep_at sheet.now.words.now sheet.now.layout s t }
{
    let v = table_places::variables_of(sheet.layout);
    (0..v).all(|k| keeps(sheet.words, &s.values, &t.values, k))
}
