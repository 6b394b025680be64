// The merged sheet of Definition 4 of source document 003, from the words of a table to a table. What the definition
// needs is gathered in the order in which it lists it, and the merged sheet is written from that. Every function is
// total: on words that are no sheet's it gathers and writes what its definition says.
#![tactic(auto)]

mod gathering;
mod head;
mod rows;
mod sheet;
mod survey;
mod sync;

ghost use Rattle.std.specs.Prelude.{◌≡◌};
ghost use Rattle.merge_words.specs.Linearize.{refused_by, merged_to, sheet_table, linear_for, linear_by};

pub use gathering::Gathered;
use merge_append::Filling;
use model::{Model, Row};
pub use sync::Sets;

// No row, the merged sheet's table and its count of edges; or the row that refuses, no edges and an empty table.
#[derive(Drop)]
pub struct Linearization {
    pub row: Option<Row>,
    pub edges: usize,
    pub table: [u32; Model::WORDS],
}

pub fn refused(row: Row) -> Linearization
    ensures { result ≡ refused_by row.0 }
{
    Linearization {
        row: Some(row),
        edges: 0,
        table: [0u32; Model::WORDS],
    }
}

// The merged sheet, from what was gathered.
fn merged(t: &[u32], g: Gathered, takers: &[u32; Model::WORDS]) -> Linearization
    ensures { result ≡ merged_to g.edges (sheet_table t.now g takers.now) }
{
    let mut out = Filling {
        words: [0u32; Model::WORDS],
        length: 0,
    };
    sheet::sheet(t, g, takers, &mut out);
    Linearization {
        row: None,
        edges: g.edges,
        table: out.words,
    }
}

// The same unless a row from 32 to 34 refuses.
fn admitted(t: &[u32], g: Gathered, takers: &[u32; Model::WORDS]) -> Linearization
    ensures { result ≡ linear_for t.now g takers.now }
{
    match rows::fault(t, g, takers) {
        Ok(()) => merged(t, g, takers),
        Err(row) => refused(row),
    }
}

// The linearization over the words of a table, which is not checked: Definition 4 from the top.
pub fn linearize(t: &[u32]) -> Linearization
    ensures { result ≡ linear_by t.now }
{
    // p leads to xs (#): a wild-card for each automaton, and where it stands
    let wildcards = table_places::layout_of(t);
    if rows::crowded(wildcards) {
        return refused(Row(31));
    }
    // to fs (ipred): the initial predicates, and the composition's own start conditions
    let inits = merge_predicates::functions_of(t, wildcards, false);
    let starts = merge_predicates::starts_of(t, wildcards);
    // to gs (inv): the invariants
    let invs = merge_predicates::functions_of(t, wildcards, true);
    // to A (sync): the synchronising set
    let sets = sync::gather(t, wildcards);
    // E: the edges, one for each action transition of p
    let own = sets.own;
    let mut takers = Filling {
        words: [0u32; Model::WORDS],
        length: 0,
    };
    let edges = merge_takers::gather(t, wildcards, &own, &mut takers);
    let g = Gathered {
        wildcards,
        inits,
        starts,
        invs,
        sets,
        edges,
    };
    admitted(t, g, &takers.words)
}
