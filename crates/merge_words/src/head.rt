// The merged sheet's words before its automaton, and after it.
ghost use Rattle.std.specs.Prelude.{◌≡◌, [], ◌∷◌};
ghost use Rattle.table_places.specs.Layout.{automata_of};
ghost use Rattle.merge_append.specs.Append.{Filled};
ghost use Rattle.merge_words.specs.Head.{format_in, last_location_at, merged_owner_word, pointer_owner_word};
ghost use Rattle.merge_words.specs.Head.{variable_at, variables_from, pointers_from, head_words};

use merge_append::Filling;
use model::Model;
use table_places::Layout;

// The last location of the automaton at a place.
fn last_location(t: &[u32], at: usize) -> usize
    ensures { result ≡ last_location_at t.now at }
{
    table_places::location_count(t, at).saturating_sub(1)
}

// The word of a variable's owner in the merged sheet, which has automaton 0 alone: nobody stays 0, and every owner
// becomes 1.
fn merged_owner(owner: usize) -> usize
    ensures { result ≡ merged_owner_word owner }
{
    if owner == 0 { 0 } else { 1 }
}

// The word of the pointers' owner: automaton 0 where the format has owners, and nobody before.
fn pointer_owner(format: usize) -> usize
    ensures { result ≡ pointer_owner_word format }
{
    if format < Model::OWNERS_FORMAT { 0 } else { 1 }
}

// The variable at a place: its range, and who owns it now.
fn variable(t: &[u32], place: usize, out: &mut Filling)
    ensures { Filled (variable_at t.now place) out.old out.new }
{
    let low = arithmetic::index(table_places::low(t, place));
    let high = arithmetic::index(table_places::high(t, place));
    let owner = merged_owner(arithmetic::index(table_places::owner(t, place)));
    out.put_all(&[low, high, owner]);
}

// So many variables, from variable 0 on.
fn variables(t: &[u32], count: usize, out: &mut Filling)
    ensures { Filled (variables_from t.now 0 count) out.old out.new }
{
    for k in 0..count {
        variable(t, table_places::range_at(t, k), out);
    }
}

// The pointers: each from 0 to its automaton's last location, and who owns it.
fn pointers(t: &[u32], x: Layout, out: &mut Filling)
    ensures { Filled (pointers_from t.now x.sets 0 (automata_of x)) out.old out.new }
{
    let count = table_places::automata_of(x);
    let owner = pointer_owner(table_places::word(t, 0));
    for place in &x.sets[..count] {
        let high = merge_append::upward(last_location(t, *place));
        out.put_all(&[Model::BIAS as usize, high, owner]);
    }
}

// Format, actions, V + N, the variables, the pointers, and one automaton.
pub fn head(t: &[u32], x: Layout, out: &mut Filling)
    ensures { Filled (head_words t.now x) out.old out.new }
{
    let format = table_places::word(t, 0);
    let total = merge_append::pointer(x.variables, x.automata);
    out.put_all(&[format, x.actions, total]);
    variables(t, table_places::variables_of(x), out);
    pointers(t, x, out);
    out.put(1);
}

// The merged sheet's last words: a tree of one leaf, and no start conditions.
pub fn tail(out: &mut Filling)
    ensures { Filled (1 ∷ 2 ∷ 0 ∷ []) out.old out.new }
{
    out.put_all(&[1, 2, 0]);
}
