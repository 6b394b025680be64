// The merged sheet, whole, from what was gathered.
ghost use Rattle.merge_append.specs.Append.{Filled};
ghost use Rattle.merge_words.specs.MergedSheet.{location_words, automaton_words, merged_sheet};

use crate::gathering::Gathered;
use crate::head::{self};
use crate::sync::{self};
use merge_append::Filling;
use merge_predicates::{Functions, Starts};
use model::Model;
use table_places::Layout;

// The one location: its number, its init and its inv.
fn location(
    t: &[u32],
    x: Layout,
    inits: Functions,
    starts: Starts,
    invs: Functions,
    out: &mut Filling,
)
    ensures { Filled (location_words t.now x inits starts invs) out.old out.new }
{
    let none = merge_predicates::no_starts();
    out.put(1);
    merge_predicates::merged(t, x, inits, starts, out);
    merge_predicates::merged(t, x, invs, none, out);
}

// The one automaton.
fn automaton(t: &[u32], g: Gathered, takers: &[u32; Model::WORDS], out: &mut Filling)
    ensures { Filled (automaton_words t.now g takers.now) out.old out.new }
{
    sync::write(g.sets, out);
    location(t, g.wildcards, g.inits, g.starts, g.invs, out);
    out.put(g.edges);
    merge_edges::all_edges(t, g.wildcards.variables, takers, g.edges, out);
}

// Head, automaton and tree.
pub fn sheet(t: &[u32], g: Gathered, takers: &[u32; Model::WORDS], out: &mut Filling)
    ensures { Filled (merged_sheet t.now g takers.now) out.old out.new }
{
    head::head(t, g.wildcards, out);
    automaton(t, g, takers, out);
    head::tail(out);
}
