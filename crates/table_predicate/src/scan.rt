// Tests of a predicate's words one by one: of `count` words from `at` on, those that are there.
ghost use Rattle.std.specs.Prelude.{◌≡◌, map, take, drop};
ghost use Rattle.model.specs.Basic.{every};
ghost use Rattle.model.specs.Predicate.{named, is_outside, is_new, names_outside, names_new};
ghost use Rattle.model.specs.Limits.{in_range};
ghost use Rattle.model.specs.Table.{word_of};
ghost use Rattle.node_words.specs.Nodes.{meant};
ghost use Rattle.table_predicate.specs.Scan.{is_coded};

use model::Model;
use node_words::Node;

#[tactic(auto, using(crate::proofs::ScanLaws::outside_laws))]
fn outside(word: u32, variables: usize) -> bool
    ensures { result ≡ is_outside variables (named (word_of word)) }
{
    match node_words::node_of(word) {
        Node::Old(k) | Node::New(k) => variables <= arithmetic::index(k),
        _ => false,
    }
}

#[tactic(auto, using(crate::proofs::ScanLaws::new_laws))]
fn new_value(word: u32) -> bool
    ensures { result ≡ is_new (named (word_of word)) }
{
    matches!(node_words::node_of(word), Node::New(_))
}

#[tactic(auto, using(crate::proofs::ScanLaws::range_laws))]
fn in_range(node: Node) -> bool
    ensures { result ≡ in_range (meant node) }
{
    match node {
        Node::All(k) | Node::Any(k) => k <= Model::OPERANDS,
        Node::Number(n) => n <= Model::LAST_BIASED,
        Node::Old(k) | Node::New(k) => k <= Model::LAST_VARIABLE,
        Node::Stray => false,
        _ => true,
    }
}

// Is the word just the one that its node is written as, and the node in range?
#[tactic(auto, using(crate::proofs::ScanLaws::coded_is))]
fn coded(word: u32) -> bool
    ensures { result ≡ is_coded word }
{
    let node = node_words::node_of(word);
    (word == node_words::word_of(node)) & in_range(node)
}

// Row 7.
pub fn names_outside(words: &[u32], at: usize, count: usize, variables: usize) -> bool
    ensures { result ≡ names_outside variables (map word_of (take count (drop at words.now))) }
{
    node_words::part(words, at, count)
        .iter()
        .any(|word| outside(*word, variables))
}

// Row 8.
pub fn names_new(words: &[u32], at: usize, count: usize) -> bool
    ensures { result ≡ names_new (map word_of (take count (drop at words.now))) }
{
    node_words::part(words, at, count)
        .iter()
        .any(|word| new_value(*word))
}

// Row 3: each word is the code of a word in range.
pub fn ranged(words: &[u32], at: usize, count: usize) -> bool
    ensures { result ≡ every is_coded (take count (drop at words.now)) }
{
    node_words::part(words, at, count)
        .iter()
        .all(|word| coded(*word))
}
