// The code of the word that a token spells: the word of its node, or that of a stray one if it spells none.
ghost use Rattle.std.specs.Prelude.{◌≡◌, ◌≤◌, drop, eqb};
ghost use Rattle.model.specs.Predicate.{stray};
ghost use Rattle.model.specs.Table as Table;
ghost use Rattle.node_words.specs.Nodes.{node_for};
ghost use Rattle.format.specs.Tokens as T;
ghost use Rattle.read_words.specs.Codes.{stray_code, word_with, argument_code, number_code, variable_code};
ghost use Rattle.read_words.specs.Codes.{word_code, count_code};

use model::Model;
use node_words::Node;
use read_tokens::{Shape, numeral};

// The words that have a number of their own: K of `all`, `any`, `vK` and `nK`.
#[derive(Clone, Copy, Debug, PartialEq, Eq)]
pub enum Numbered {
    All,
    Any,
    Old,
    New,
}

#[tactic(auto, using(crate::proofs::CodeLaws::stray_is))]
fn stray_code() -> u32
    ensures { result ≡ stray_code }
{
    node_words::word_of(Node::Stray)
}

#[tactic(auto, using(crate::proofs::CodeLaws::stray_test))]
pub fn is_stray(code: u32) -> bool
    ensures { result ≡ eqb code stray_code }
{
    code == stray_code()
}

// The last four of the words that are one token, and no number: those of expressions. Each word keeps a test and an
// arm, as in read_extent/src/calls.rt, where one `match` on byte strings was tried.
fn operator_code(token: &[u8]) -> u32
    ensures { result ≡ Table.code (T.find stray (drop 4 T.spellings) token.now) }
{
    if text_bytes::same(b"add", token) {
        return node_words::word_of(Node::Add);
    }
    if text_bytes::same(b"sub", token) {
        return node_words::word_of(Node::Sub);
    }
    if text_bytes::same(b"mul", token) {
        return node_words::word_of(Node::Mul);
    }
    if text_bytes::same(b"if", token) {
        return node_words::word_of(Node::If);
    }
    stray_code()
}

fn keyword_code(token: &[u8]) -> u32
    ensures { result ≡ Table.code (T.find stray T.spellings token.now) }
{
    if text_bytes::same(b"not", token) {
        return node_words::word_of(Node::Not);
    }
    if text_bytes::same(b"imp", token) {
        return node_words::word_of(Node::Imp);
    }
    if text_bytes::same(b"eq", token) {
        return node_words::word_of(Node::Eq);
    }
    if text_bytes::same(b"le", token) {
        return node_words::word_of(Node::Le);
    }
    operator_code(token)
}

// A number, moved up so that none is negative.
pub fn biased(z: i32) -> u32
    ensures { result ≡ Table.biased z }
{
    u32::try_from(i64::from(z) + i64::from(Model::BIAS)).unwrap_or(0)
}

#[tactic(auto, using(crate::proofs::CodeLaws::number_laws))]
fn number_code(s: &[u8]) -> u32
    ensures { result ≡ number_code s.now }
{
    match text_numbers::integer(s, Model::LEAST_NUMBER, Model::GREATEST_NUMBER) {
        Some(z) => node_words::word_of(Node::Number(biased(z))),
        None => stray_code(),
    }
}

#[tactic(auto, using(crate::proofs::CodeLaws::with_laws))]
fn node_with(which: Numbered, k: u32) -> Node
    ensures { result ≡ node_for (word_with which k) }
{
    match which {
        Numbered::All => Node::All(k),
        Numbered::Any => Node::Any(k),
        Numbered::Old => Node::Old(k),
        Numbered::New => Node::New(k),
    }
}

// A word with an argument from 0 to `high`.
#[tactic(auto, using(crate::proofs::CodeLaws::argument_laws))]
fn argument_code(which: Numbered, high: u32, s: &[u8]) -> u32
    requires { high ≤ 512 }
    ensures { result ≡ argument_code which high s.now }
{
    match text_numbers::natural(s, high) {
        Some(k) => node_words::word_of(node_with(which, k)),
        None => stray_code(),
    }
}

#[tactic(auto, using(crate::proofs::CodeLaws::variable_laws))]
fn variable_code(letter: u8, s: &[u8]) -> u32
    ensures { result ≡ variable_code letter s.now }
{
    if letter == b'v' {
        return argument_code(Numbered::Old, Model::LAST_VARIABLE, s);
    }
    if letter == b'n' {
        return argument_code(Numbered::New, Model::LAST_VARIABLE, s);
    }
    stray_code()
}

// A word that is one token.
#[tactic(auto, using(crate::proofs::CodeLaws::word_laws, crate::proofs::CodeLaws::long_laws))]
pub fn word_code(token: &[u8]) -> u32
    ensures { result ≡ word_code token.now }
{
    match numeral(token) {
        Shape::Bare => number_code(token),
        Shape::Lettered(b) => variable_code(b, &token[1..]),
        Shape::Plain => keyword_code(token),
    }
}

// The K after `all` or `any`, with it.
#[tactic(auto, using(crate::proofs::CodeLaws::count_laws))]
pub fn count_code(which: Numbered, token: &[u8]) -> u32
    ensures { result ≡ count_code which token.now }
{
    match numeral(token) {
        Shape::Bare => argument_code(which, Model::OPERANDS, token),
        Shape::Lettered(_) | Shape::Plain => stray_code(),
    }
}
