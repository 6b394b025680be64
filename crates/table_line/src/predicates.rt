// A predicate in a table's words: its count of nodes, and the nodes.
ghost use Rattle.std.specs.Prelude.{◌≡◌, ◌+◌};
ghost use Rattle.table_line.specs.Line.{ranges_in, walked_to, nodes_sound, predicate_at, location_at};

use crate::Line;
use line_order::Counts;
use model::Model;
use table_predicate::{Ended, Walked};

// The words of the first variables, which stand from word 3 on, as far as they are there.
#[tactic(auto, using(crate::proofs::PredicateCode::ranges_laws))]
pub fn ranges(t: &[u32], variables: usize) -> &[u32]
    ensures { result.now ≡ ranges_in t.now variables }
{
    if t.len() < 3 {
        return &t[..0];
    }
    if (t.len() - 3) / 3 < variables {
        return &t[3..];
    }
    &t[3..3 + 3 * variables]
}

// The walk came past n nodes from `start` on, and past no more, and stayed in the span.
#[tactic(auto, using(crate::proofs::PredicateCode::walked_laws))]
fn walked_to(walk: Result<Walked, Ended>, start: usize, n: usize) -> bool
    ensures { result ≡ walked_to walk (start + n) }
{
    match walk {
        Ok(walk) => !walk.leaves && walk.next.checked_sub(start) == Some(n),
        Err(_) => false,
    }
}

// n nodes from `start` on: rows 3, 7, 6 with 9 and 10, and 11.
#[tactic(auto, using(crate::proofs::PredicateCode::nodes_laws))]
fn nodes_sound(t: &[u32], start: usize, n: usize, counts: Counts) -> bool
    ensures { result ≡ nodes_sound t.now counts start n }
{
    if !table_predicate::scan::ranged(t, start, n) {
        return false;
    }
    if table_predicate::scan::names_outside(t, start, n, counts.variables) {
        return false;
    }
    let walk = table_predicate::walk(t, start, ranges(t, counts.variables));
    walked_to(walk, start, n) && arithmetic::fits(counts.nodes, n, Model::NODES)
}

// A predicate: its count of nodes, and the nodes.
#[tactic(auto, using(crate::proofs::PredicateCode::predicate_laws))]
pub(crate) fn predicate(t: &[u32], at: usize, counts: Counts) -> Option<Line>
    ensures { result ≡ predicate_at t.now at counts }
{
    let nodes = arithmetic::index(*t.get(at)?);
    if t.len() - (at + 1) < nodes {
        return None;
    }
    if !nodes_sound(t, at + 1, nodes, counts) {
        return None;
    }
    Some(Line {
        nodes,
        ..Line::ending(at + 1 + nodes)
    })
}

// A predicate on a location's values, where no new ones are: row 8 too.
#[tactic(auto, using(crate::proofs::PredicateCode::location_laws))]
pub(crate) fn location(t: &[u32], at: usize, counts: Counts) -> Option<Line>
    ensures { result ≡ location_at t.now at counts }
{
    let nodes = arithmetic::index(*t.get(at)?);
    if table_predicate::scan::names_new(t, at + 1, nodes) {
        return None;
    }
    predicate(t, at, counts)
}
