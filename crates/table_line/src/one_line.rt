// One line of a table: do its words say something that no row refuses?
ghost use Rattle.std.specs.Prelude.{◌≡◌};
ghost use Rattle.table_line.specs.Line.{number_at, variable_sound, variable_at, automata_at, sync_at, edges_at};
ghost use Rattle.table_line.specs.Line.{ends_sound, owns_at, edge_at, line_at};

use crate::Line;
use crate::composition::{self};
use crate::predicates::{self};
use line_order::{Counts, Key};
use model::Model;

// A number from least to most.
#[tactic(auto, using(crate::proofs::CodeLaws::number_laws))]
fn number(t: &[u32], at: usize, least: usize, most: usize) -> Option<Line>
    ensures { result ≡ number_at t.now at least most }
{
    let number = arithmetic::index(*t.get(at)?);
    if number < least || most < number {
        return None;
    }
    Some(Line {
        number,
        ..Line::ending(at + 1)
    })
}

// A range, both ends with the bias; and an owner's word: nobody's, or from the format with owners on one that an
// automaton can have.
#[tactic(auto, using(crate::proofs::CodeLaws::variable_by))]
fn variable_sound(format: usize, low: u32, high: u32, owner: usize) -> bool
    ensures { result ≡ variable_sound format low high owner }
{
    (high <= Model::LAST_BIASED)
        & ((low <= high)
            & ((owner <= Model::AUTOMATA) & ((owner == 0) | (Model::OWNERS_FORMAT <= format))))
}

#[tactic(auto, using(crate::proofs::CodeLaws::variable_laws))]
fn variable(t: &[u32], at: usize, format: usize) -> Option<Line>
    ensures { result ≡ variable_at t.now at format }
{
    if t.len() <= at {
        return None;
    }
    if t.len() - at <= 2 {
        return None;
    }
    let owner = arithmetic::index(t[at + 2]);
    if !variable_sound(format, t[at], t[at + 1], owner) {
        return None;
    }
    Some(Line::ending(at + 3))
}

// How many automata: row 50.
#[tactic(auto, using(crate::proofs::CodeLaws::automata_laws))]
fn automata(t: &[u32], at: usize, counts: Counts) -> Option<Line>
    ensures { result ≡ automata_at t.now at counts }
{
    let n = arithmetic::index(*t.get(at)?);
    if table_owners::beyond(predicates::ranges(t, counts.variables), n) {
        return None;
    }
    number(t, at, 1, Model::AUTOMATA)
}

// A synchronising set.
#[tactic(auto, using(crate::proofs::CodeLaws::sync_laws))]
fn sync(t: &[u32], at: usize, actions: usize) -> Option<Line>
    ensures { result ≡ sync_at t.now at actions }
{
    if t.len() <= at {
        return None;
    }
    if t.len() <= at + 1 {
        return None;
    }
    if !table_tree::set_sound(t[at], t[at + 1], line_order::capped(actions)) {
        return None;
    }
    Some(Line::ending(at + 2))
}

// How many edges: row 15.
#[tactic(auto, using(crate::proofs::CodeLaws::edges_laws))]
fn edges(t: &[u32], at: usize, counts: Counts) -> Option<Line>
    ensures { result ≡ edges_at t.now at counts }
{
    let number = arithmetic::index(*t.get(at)?);
    if !arithmetic::fits(counts.edges, number, Model::EDGES) {
        return None;
    }
    Some(Line {
        number,
        ..Line::ending(at + 1)
    })
}

// The two locations and the action of an edge.
#[tactic(auto, using(crate::proofs::CodeLaws::ends_by))]
fn ends_sound(counts: Counts, from: usize, action: usize, to: usize) -> bool
    ensures { result ≡ ends_sound counts from action to }
{
    ((from <= Model::LAST_LOCATION)
        & ((action <= Model::LAST_ACTION) & (to <= Model::LAST_LOCATION)))
        & ((from < counts.locations) & ((action <= counts.actions) & (to < counts.locations)))
}

// Row 51 of an edge whose update stands at a place, and has so many nodes.
#[tactic(auto, using(crate::proofs::CodeLaws::owns_laws))]
fn owns(t: &[u32], at: usize, counts: Counts, nodes: usize) -> bool
    ensures { result ≡ owns_at t.now counts at nodes }
{
    if counts.format < Model::OWNERS_FORMAT {
        return true;
    }
    if t.len() <= at {
        return false;
    }
    let rest = table_writes::unwritten(t, at + 1, nodes);
    let ranges = predicates::ranges(t, counts.variables);
    !table_owners::foreign(ranges, counts.automata, rest)
}

// An edge: its ends, its update, and that its automaton owns what it writes.
#[tactic(auto, using(crate::proofs::CodeLaws::edge_laws))]
fn edge(t: &[u32], at: usize, counts: Counts) -> Option<Line>
    ensures { result ≡ edge_at t.now at counts }
{
    if t.len() <= at {
        return None;
    }
    if t.len() - at <= 2 {
        return None;
    }
    let from = arithmetic::index(t[at]);
    let action = arithmetic::index(t[at + 1]);
    let to = arithmetic::index(t[at + 2]);
    if !ends_sound(counts, from, action, to) {
        return None;
    }
    let line = predicates::predicate(t, at + 3, counts)?;
    if !owns(t, at + 3, counts, line.nodes) {
        return None;
    }
    Some(line)
}

// The line with this key whose words begin at `at`.
#[tactic(auto, using(crate::proofs::CodeLaws::line_laws))]
pub fn read(t: &[u32], at: usize, key: Key, counts: Counts) -> Option<Line>
    ensures { result ≡ line_at t.now at key counts }
{
    match key {
        Key::Format => number(t, at, Model::FIRST_FORMAT, Model::LAST_FORMAT),
        Key::Actions => number(t, at, 0, Model::LAST_ACTION),
        Key::Variables => number(t, at, 0, Model::VARIABLES),
        Key::Variable => variable(t, at, counts.format),
        Key::Automata => automata(t, at, counts),
        Key::Sync => sync(t, at, counts.actions),
        Key::Locations => number(t, at, 1, Model::LOCATIONS),
        Key::Init | Key::Inv => predicates::location(t, at, counts),
        Key::Edges => edges(t, at, counts),
        Key::Edge => edge(t, at, counts),
        Key::Compose => composition::compose(t, at, counts),
        Key::End => None,
    }
}
