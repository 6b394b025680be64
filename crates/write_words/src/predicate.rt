// Predicates: the nodes of a predicate, each one word, and spaces between them.
#![tactic(auto, using(crate::proofs::WordLaws::predicate_laws))]

ghost use Rattle.std.specs.Prelude.{◌≡◌};
ghost use Rattle.write_words.specs.Growing.{Grew};
ghost use Rattle.write_words.specs.NodeText.{name_part, name_text, argument_text, word_text, words_text};
ghost use Rattle.write_words.specs.NodeText.{predicate_text};

use crate::growing::{Part, Text};
use crate::read::{self};
use node_words::Node;

// Where a node's name stands among all names.
#[tactic(auto, unfolding(crate::specs::NodeText::name_part))]
fn among_names(node: Node) -> Part
    ensures { result ≡ name_part node }
{
    match node {
        Node::All(_) => Part { from: 0, to: 4 },
        Node::Any(_) => Part { from: 4, to: 8 },
        Node::Not => Part { from: 8, to: 11 },
        Node::Imp => Part { from: 11, to: 14 },
        Node::Eq => Part { from: 14, to: 16 },
        Node::Le => Part { from: 16, to: 18 },
        Node::Old(_) => Part { from: 18, to: 19 },
        Node::New(_) => Part { from: 19, to: 20 },
        Node::Add => Part { from: 20, to: 23 },
        Node::Sub => Part { from: 23, to: 26 },
        Node::Mul => Part { from: 26, to: 29 },
        Node::If => Part { from: 29, to: 31 },
        Node::Number(_) | Node::Stray => Part { from: 31, to: 31 },
    }
}

// What a node is called.
fn name(node: Node, out: &mut Text)
    ensures { Grew (name_text node) out.old out.new }
{
    out.put_part(b"all any notimpeqlevnaddsubmulif", among_names(node));
}

// Its argument, where it has one.
#[tactic(auto, using(crate::proofs::GrowingLaws::grew_none), unfolding(crate::specs::NodeText::argument_text))]
fn argument(node: Node, out: &mut Text)
    ensures { Grew (argument_text node) out.old out.new }
{
    match node {
        Node::All(k) | Node::Any(k) | Node::Old(k) | Node::New(k) => out.number(k),
        Node::Number(n) => out.biased(n),
        _ => {}
    }
}

fn word(w: u32, out: &mut Text)
    ensures { Grew (word_text w) out.old out.new }
{
    let node = node_words::node_of(w);
    name(node, out);
    argument(node, out);
}

fn words(ws: &[u32], out: &mut Text)
    ensures { Grew (words_text ws.now) out.old out.new }
{
    for (i, w) in ws.iter().enumerate() {
        out.apart(b" ", i == 0);
        word(*w, out);
    }
}

// A predicate: its count of nodes, and the nodes.
pub(crate) fn counted(ws: &[u32], out: &mut Text)
    ensures { Grew (predicate_text ws.now) out.old out.new }
{
    let n = read::count(ws, 0);
    words(read::first(read::rest(ws, 1), n), out);
}
