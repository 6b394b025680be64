// Can some automata take the action so that the step is theirs? And is the action marked?
#![tactic(auto, using(crate::proofs::TakenLaws::taken_laws))]

ghost use Rattle.std.specs.Prelude.{◌≡◌};
ghost use Rattle.judge_call.specs.Taken.{taken_in, taken_at, mark_at};

use judge_rows::State;
use judge_search::Step;
use table_places::Sheet;

// From the locations `old` and the values `before` to `new` and `after`.
fn found(
    sheet: &Sheet<'_>,
    own: &[u64],
    old: &[u32],
    new: &[u32],
    before: &[i32],
    after: &[i32],
    action: u32,
) -> bool
    ensures { result ≡ taken_in sheet.now.words.now sheet.now.layout own.now old.now
        new.now before.now after.now action }
{
    let mut masks = [0u64; 512];
    let mut first = [0usize; 17];
    judge_candidates::gather(
        sheet.words,
        sheet.layout,
        old,
        new,
        before,
        after,
        action,
        &mut masks,
        &mut first,
    );
    let still = judge_candidates::still(old, new);
    let changed = judge_candidates::changed(before, after);
    let step = Step {
        action,
        still,
        changed,
    };
    let tree = table_places::nodes_at(sheet.words, sheet.layout.tree);
    judge_search::found(sheet.words, tree, own, &masks, &first, step)
}

// `own` is the automata's own sets.
pub(crate) fn taken(sheet: &Sheet<'_>, own: &[u64], s: State, action: u32, t: State) -> bool
    ensures { result ≡ taken_at sheet.now.words.now sheet.now.layout own.now action s t }
{
    let n = table_places::automata_of(sheet.layout);
    let v = table_places::variables_of(sheet.layout);
    let old = s.locations;
    let new = t.locations;
    let before = s.values;
    let after = t.values;
    found(
        sheet,
        own,
        &old[..n],
        &new[..n],
        &before[..v],
        &after[..v],
        action,
    )
}

// The mark: is the action in the whole's set?
pub(crate) fn mark(sheet: &Sheet<'_>, own: &[u64], action: u32) -> bool
    ensures { result ≡ mark_at sheet.now.words.now sheet.now.layout own.now action }
{
    let tree = table_places::nodes_at(sheet.words, sheet.layout.tree);
    table_tree::in_set(sheet.words, tree, own, action)
}
