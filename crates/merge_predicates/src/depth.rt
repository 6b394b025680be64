// How deep the predicates nest that the merged ones take in (row 33).
#![tactic(auto, using(crate::proofs::DepthLaws::depth_laws))]

ghost use Rattle.std.specs.Prelude.{◌≡◌, get_or};
ghost use Rattle.node_words.specs.Nodes.{meant};
ghost use Rattle.merge_predicates.specs.Depths.{arity, operands_of, depth_at, is_deeper, values_deeper};
ghost use Rattle.merge_predicates.specs.Depths.{starts_deeper};

use crate::functions::{self};
use crate::starts::Starts;
use node_words::Node;

// How deep a node and its operands nest, and where the words after them begin.
#[derive(Clone, Copy, Debug, PartialEq, Eq)]
pub struct Depth {
    pub depth: usize,
    pub next: usize,
}

// How many operands a node has.
fn operands_of(node: Node) -> usize
    ensures { result ≡ arity (meant node) }
{
    match node {
        Node::All(k) | Node::Any(k) => arithmetic::index(k),
        Node::Not => 1,
        Node::Imp | Node::Eq | Node::Le | Node::Add | Node::Sub | Node::Mul => 2,
        Node::If => 3,
        _ => 0,
    }
}

// The operands of the node at a place; past the end the words are 0.
fn operands_at(t: &[u32], at: usize) -> usize
    ensures { result ≡ operands_of (get_or t.now at 0) }
{
    operands_of(node_words::node_of(t.get(at).copied().unwrap_or(0)))
}

// The node at a place, and its operands, at most `left` deep: what depth remains falls at each call.
fn depth_at(t: &[u32], left: usize, at: usize) -> Depth
    ensures { result ≡ depth_at t.now left at }
{
    if left == 0 {
        return Depth { depth: 0, next: at };
    }
    let below = left - 1;
    let operands = operands_at(t, at);
    let mut next = table_places::step(t, at, 1);
    let mut deepest: usize = 0;
    for _ in 0..operands {
        let d = depth_at(t, below, next);
        next = d.next;
        deepest = deepest.max(d.depth);
    }
    Depth {
        depth: merge_append::add(1, deepest),
        next,
    }
}

// Is the predicate at a place deeper than `most`?
pub fn is_deeper(t: &[u32], most: usize, at: usize) -> bool
    ensures { result ≡ is_deeper t.now most at }
{
    let nodes = table_places::nodes_at(t, at);
    let d = depth_at(t, model::Model::DEPTH + 1, nodes);
    most < d.depth
}

// Is the merged init, or the merged inv, too deep, of which the first `count` values stand at these places? It nests
// two deeper than these.
pub fn merged_deep(t: &[u32], places: &[usize], count: usize) -> bool
    ensures { result ≡ values_deeper t.now 22 places.now 0 count }
{
    for i in 0..count {
        if is_deeper(t, model::Model::DEPTH - 2, functions::value(places, i)) {
            return true;
        }
    }
    false
}

// Is the merged init too deep for one of its start conditions? It nests one deeper than these.
pub fn starts_deep(t: &[u32], s: Starts) -> bool
    ensures { result ≡ starts_deeper t.now 23 s.first s.count }
{
    let mut place = s.first;
    for _ in 0..s.count {
        if is_deeper(t, model::Model::DEPTH - 1, place) {
            return true;
        }
        place = table_places::after_predicate(t, place);
    }
    false
}
