// Row 6: do the words make one predicate? They are read from the right, with a stack of sorts in place of trees: each
// word takes its operands' sorts off and puts its own on. What is taken off was put on once, so the work is linear in
// the words.
ghost use Rattle.std.specs.Prelude.{◌≡◌, not, ◌&&◌, map, ◌≤◌, ◌<◌, length, take, leb};
ghost use Rattle.model.specs.Basic.{lacks};
ghost use Rattle.model.specs.Parse.{read_pred};
ghost use Rattle.model.specs.Table.{word_of};
ghost use Rattle.read_predicate.specs.Formed.{takes, arity_of, taken_from, Pushed};
ghost use Rattle.read_predicate.specs.Scratch.{Scratch};

use node_words::Node;

// What a word takes off and puts on: so many predicates, then so many expressions; is it a predicate itself?
#[derive(Clone, Copy, Debug, PartialEq, Eq)]
pub struct Arity {
    pub preds: usize,
    pub exprs: usize,
    pub sort: bool,
}

fn takes(preds: usize, exprs: usize, sort: bool) -> Option<Arity>
    ensures { result ≡ takes preds exprs sort }
{
    Some(Arity { preds, exprs, sort })
}

// A stray word takes and puts nothing.
#[tactic(auto, using(crate::proofs::FormedLaws::arity_laws))]
fn arity_of(word: u32) -> Option<Arity>
    ensures { result ≡ arity_of (word_of word) }
{
    match node_words::node_of(word) {
        Node::All(k) => takes(arithmetic::index(k), 0, true),
        Node::Any(k) => takes(arithmetic::index(k), 0, true),
        Node::Not => takes(1, 0, true),
        Node::Imp => takes(2, 0, true),
        Node::Eq | Node::Le => takes(0, 2, true),
        Node::Number(_) | Node::Old(_) | Node::New(_) => takes(0, 0, false),
        Node::Add | Node::Sub | Node::Mul => takes(0, 2, false),
        Node::If => takes(1, 2, false),
        Node::Stray => None,
    }
}

// The height after `count` operands of a sort are taken off; none if they are not on top.
fn taken(sorts: &[bool], height: usize, count: usize, sort: bool) -> Option<usize>
    requires { height ≤ length sorts.now }
    ensures { result ≡ taken_from sorts.now sort count height }
{
    let below = height.checked_sub(count)?;
    let found = sorts[below..height].iter().all(|s| *s == sort);
    if found { Some(below) } else { None }
}

// One word more: its operands off, itself on. The height, unless the words make no predicate.
fn step(word: u32, sorts: &mut [bool], height: usize) -> Option<usize>
    requires { height < length sorts.old }
    ensures { Pushed (arity_of (word_of word)) sorts.old sorts.new height result }
{
    let arity = arity_of(word)?;
    let below = taken(sorts, height, arity.preds, true)?;
    let top = taken(sorts, below, arity.exprs, false)?;
    sorts[top] = arity.sort;
    Some(top + 1)
}

// Do the first n words make one predicate? There must be room for a sort of each. The sorts are scratch memory,
// whatever stands in them: to clear as many would cost more than most predicates.
#[tactic(auto, using(crate::proofs::FormedLaws::formed_laws))]
pub fn well_formed(words: &[u32], n: usize, sorts: &mut [bool]) -> bool
    ensures value { result ≡ (leb n (length sorts.old) && (leb n (length words.now)
        && not (lacks (read_pred (map word_of (take n words.now)))))) }
    ensures scratch { Scratch sorts.old sorts.new }
{
    if sorts.len() < n {
        return false;
    }
    if words.len() < n {
        return false;
    }
    let mut height = 0;
    for i in (0..n).rev() {
        let Some(h) = step(words[i], sorts, height) else {
            return false;
        };
        height = h;
    }
    if height != 1 {
        return false;
    }
    sorts[0]
}
