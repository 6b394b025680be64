// The words of predicate nodes (docs/TABLE.md): the one place that knows how a word holds a node.
#![tactic(auto)]

ghost use Rattle.std.specs.Prelude.{◌≡◌, ◌+◌, ◌*◌, ◌%◌, ◌<◌, take, drop};
ghost use Rattle.model.specs.Bounds.{first_number_word};
ghost use Rattle.node_words.specs.Nodes.{node_of, word_for};

use model::Model;

// A node with its argument: the operands of `all` and `any`, a number with the bias, the variable of `vK` and `nK`.
// Stray: no node.
// Stays an enum with a node that is none: it stands for `stray` of the definitions, a word like the others.
#[derive(Clone, Copy, Debug, PartialEq, Eq)]
pub enum Node {
    All(u32),
    Any(u32),
    Not,
    Imp,
    Eq,
    Le,
    Number(u32),
    Old(u32),
    New(u32),
    Add,
    Sub,
    Mul,
    If,
    Stray,
}

// The node that a word holds. A node without an argument is found whatever its argument is.
#[tactic(auto, using(crate::proofs::NodeLaws::holds_laws))]
pub fn node_of(word: u32) -> Node
    ensures { result ≡ node_of word }
{
    if Model::FIRST_NUMBER_WORD <= word {
        return Node::Number(word - Model::FIRST_NUMBER_WORD);
    }
    let argument = word / 16;
    match word % 16 {
        0 => Node::All(argument),
        1 => Node::Any(argument),
        2 => Node::Not,
        3 => Node::Imp,
        4 => Node::Eq,
        5 => Node::Le,
        7 => Node::Old(argument),
        8 => Node::New(argument),
        9 => Node::Add,
        10 => Node::Sub,
        11 => Node::Mul,
        12 => Node::If,
        _ => Node::Stray,
    }
}

// A word with an argument, of which the low 27 bits find room below the numbers.
fn packed(kind: u32, argument: u32) -> u32
    requires { kind < 16 }
    ensures { result ≡ kind + 16 * (argument % 134217728) }
{
    kind + 16 * (argument % 134217728)
}

// A number's word, with the low 31 bits of the number.
fn numbered(n: u32) -> u32
    ensures { result ≡ first_number_word + n % 2147483648 }
{
    Model::FIRST_NUMBER_WORD + n % 2147483648
}

// The word that holds a node.
#[tactic(auto, using(crate::proofs::NodeLaws::word_laws))]
pub fn word_of(node: Node) -> u32
    ensures { result ≡ word_for node }
{
    match node {
        Node::All(k) => packed(0, k),
        Node::Any(k) => packed(1, k),
        Node::Not => 2,
        Node::Imp => 3,
        Node::Eq => 4,
        Node::Le => 5,
        Node::Number(n) => numbered(n),
        Node::Old(k) => packed(7, k),
        Node::New(k) => packed(8, k),
        Node::Add => 9,
        Node::Sub => 10,
        Node::Mul => 11,
        Node::If => 12,
        Node::Stray => 15,
    }
}

// Of `count` words from `at` on, those that are there: a predicate's words, by its place and its count.
pub fn part(words: &[u32], at: usize, count: usize) -> &[u32]
    ensures { result.now ≡ take count (drop at words.now) }
{
    let rest = &words[at.min(words.len())..];
    &rest[..count.min(rest.len())]
}
