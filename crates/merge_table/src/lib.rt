// The linearization of a sheet, Definition 4 of source document 003, from a table to a table.
#![tactic(auto)]

ghost use Rattle.std.specs.Prelude.{◌≡◌};
ghost use Rattle.merge_words.specs.Linearize.{linear_by};
ghost use Rattle.merge_table.specs.Linearization.{distinct_table, linearization};

use merge_append::Filling;
pub use merge_words::Linearization;
use model::Model;

// The same for a table that has been checked. The edges of an automaton are a set, so equal ones are one: then no
// merged edge comes about twice.
fn linearize_once(t: &[u32]) -> Linearization
    ensures { result ≡ linear_by (distinct_table t.now) }
{
    let x = table_places::layout_of(t);
    if merge_distinct::repeats(t, x) {
        let mut once = Filling {
            words: [0u32; Model::WORDS],
            length: 0,
        };
        merge_distinct::distinct(t, x, &mut once);
        return merge_words::linearize(&once.words);
    }
    merge_words::linearize(t)
}

// The table of the merged automaton, or one of rows 18, 19 and 31 to 34.
pub fn linearize(t: &[u32]) -> Linearization
    ensures { result ≡ linearization t.now }
{
    match table_check::check(t) {
        Ok(()) => linearize_once(t),
        Err(row) => merge_words::refused(row),
    }
}
