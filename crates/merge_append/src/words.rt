// The words of the nodes that merged predicates have of their own, and sums that stay within a word.
#![tactic(auto, using(crate::proofs::NodeLaws::node_laws))]

ghost use Rattle.std.specs.Prelude.{◌≡◌, ◌+◌};
ghost use Rattle.merge_append.specs.NodeWords.{upward, imp_node, eq_node, all_node, number_node, old_node, new_node};
ghost use Rattle.merge_append.specs.NodeWords.{pointer_of, capped};
ghost use Rattle.node_words.specs.Nodes.{word_for};

use crate::append::{self};
use model::Model;
use node_words::Node;

// A number from 0 up, with the bias.
pub fn upward(z: usize) -> usize
    ensures { result ≡ upward z }
{
    Model::BIAS as usize + z % 4294967296
}

// The word of a node.
fn held(node: Node) -> usize
    ensures { result ≡ word_for node }
{
    arithmetic::index(node_words::word_of(node))
}

// Stays six functions: with one that takes a node, each caller would cut its number to 32 bits itself.
// `imp`.
pub fn imp_node() -> usize
    ensures { result ≡ imp_node }
{
    held(Node::Imp)
}

// `eq`.
pub fn eq_node() -> usize
    ensures { result ≡ eq_node }
{
    held(Node::Eq)
}

// `all K`.
pub fn all_node(k: usize) -> usize
    ensures { result ≡ all_node k }
{
    held(Node::All(append::narrow(k)))
}

// A number from 0 up.
pub fn number_node(z: usize) -> usize
    ensures { result ≡ number_node z }
{
    held(Node::Number(append::narrow(upward(z))))
}

// `vK`.
pub fn old_node(k: usize) -> usize
    ensures { result ≡ old_node k }
{
    held(Node::Old(append::narrow(k)))
}

// `nK`.
pub fn new_node(k: usize) -> usize
    ensures { result ≡ new_node k }
{
    held(Node::New(append::narrow(k)))
}

// The sum of two words: automaton i's pointer, after so many variables.
pub fn pointer(variables: usize, i: usize) -> usize
    ensures { result ≡ pointer_of variables i }
{
    variables % 4294967296 + i % 4294967296
}

// A sum, at most the greatest word.
pub fn add(a: usize, b: usize) -> usize
    ensures { result ≡ capped (a + b) }
{
    a.saturating_add(b).min(u32::MAX as usize)
}
