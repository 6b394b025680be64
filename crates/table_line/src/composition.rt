// The composition in a table's words: its tree, and behind it the P of each `ini`.
ghost use Rattle.std.specs.Prelude.{◌≡◌};
ghost use Rattle.table_line.specs.Line.{starts_from, starts_at, compose_at};

use crate::Line;
use crate::predicates::{self};
use line_order::Counts;
use model::Model;

// So many P from `at` on, each as an init line has it; the nodes of those before it count with the sheet's.
fn starts(t: &[u32], at: usize, count: usize, counts: Counts) -> Option<Line>
    ensures { result ≡ starts_from t.now counts count at 0 }
{
    let mut next = at;
    let mut total = 0;
    for _ in 0..count {
        let before = counts.with_nodes(total);
        let line = predicates::location(t, next, before)?;
        total += line.nodes;
        next = line.next;
    }
    Some(Line {
        nodes: total,
        ..Line::ending(next)
    })
}

// Behind a tree with so many `ini`: their number again, and their P.
#[tactic(auto, using(crate::proofs::CompositionCode::behind_laws))]
fn behind(t: &[u32], at: usize, inis: usize, counts: Counts) -> Option<Line>
    ensures { result ≡ starts_at t.now counts at inis }
{
    if arithmetic::index(*t.get(at)?) != inis {
        return None;
    }
    starts(t, at + 1, inis, counts)
}

// The composition: rows 5, 13, 14 and 16 of the tree, and of each P the rows of an init line.
#[tactic(auto, using(crate::proofs::CompositionCode::compose_laws))]
pub(crate) fn compose(t: &[u32], at: usize, counts: Counts) -> Option<Line>
    ensures { result ≡ compose_at t.now at counts }
{
    if Model::AUTOMATA < counts.automata || Model::NODES < counts.nodes {
        return None;
    }
    let actions = line_order::capped(counts.actions);
    let tree = table_tree::check(t, at, actions, counts.automata)?;
    behind(t, tree.next, tree.inis, counts)
}
