// Sets, and the tree's nodes: `par`, `syn` with its set, `ini` with its P, and leaves.
#![tactic(auto, using(crate::proofs::NodeLaws::tree_laws))]

ghost use Rattle.std.specs.Prelude.{◌≡◌, drop};
ghost use Rattle.format.specs.Bytes.{joined, space};
ghost use Rattle.write_words.specs.Growing.{Grew};
ghost use Rattle.write_words.specs.NodeText.{member_text, members_text, set_text, is_ini, over_text, node_text};
ghost use Rattle.write_words.specs.NodeText.{node_size, starts_after, node_texts};

use crate::growing::Text;
use crate::read::{self};
use table_places::word32;

// A number, if it is in the set.
fn member(is_in: bool, first: bool, k: u32, out: &mut Text)
    ensures { Grew (member_text is_in first k) out.old out.new }
{
    if is_in {
        out.apart(b",", first);
        out.number(k);
    }
}

// The members of a set of 64 bits, which rise, and commas between them.
pub(crate) fn members(both: u64, out: &mut Text)
    ensures { Grew (members_text both) out.old out.new }
{
    let mut first = true;
    for k in 0..64 {
        let is_in = table_tree::in_word(both, k);
        member(is_in, first, k, out);
        first &= !is_in;
    }
}

// The actions of a set of two words.
pub(crate) fn set(low: u32, high: u32, out: &mut Text)
    ensures { Grew (set_text low high) out.old out.new }
{
    members(table_tree::set_of(low, high), out);
}

// Is the node that the words begin with an `ini`? Its words are those of a `syn` with no action.
fn is_ini(ws: &[u32]) -> bool
    ensures { result ≡ is_ini ws.now }
{
    let none = (word32(ws, 1) == 0) & (word32(ws, 2) == 0);
    (word32(ws, 0) == 1) & none
}

// An `ini` with its P, or a `syn` with its set.
fn over(ws: &[u32], ps: &[u32], out: &mut Text)
    ensures { Grew (over_text (is_ini ws.now) ws.now ps.now) out.old out.new }
{
    if is_ini(ws) {
        out.put(b"ini ");
        crate::predicate::counted(ps, out);
    } else {
        out.put(b"syn ");
        set(word32(ws, 1), word32(ws, 2), out);
    }
}

// The node that the words begin with; its P, if it is an `ini`, is the one that `ps` begins with.
fn node(ws: &[u32], ps: &[u32], out: &mut Text)
    ensures { Grew (node_text ws.now ps.now) out.old out.new }
{
    match word32(ws, 0) {
        0 => out.put(b"par"),
        1 => over(ws, ps, out),
        w => {
            out.put(b"a");
            out.number(w - 2);
        }
    }
}

// How many words it has.
fn size(ws: &[u32]) -> usize
    ensures { result ≡ node_size ws.now }
{
    if word32(ws, 0) == 1 { 3 } else { 1 }
}

// Where the next P stands after this node, `at` being where its own would.
fn after(ws: &[u32], ps: &[u32], at: usize) -> usize
    ensures { drop result ps.now ≡ starts_after (is_ini ws.now) (drop at ps.now) }
{
    if is_ini(ws) {
        return table_places::after_predicate(ps, at);
    }
    at
}

// So many nodes, and spaces between them; `ps` are the P's, in the order of the `ini`.
#[tactic(auto, using(crate::proofs::NodeLaws::nodes_laws))]
pub(crate) fn nodes(ws: &[u32], n: usize, ps: &[u32], out: &mut Text)
    ensures { Grew (joined space (node_texts n ws.now ps.now)) out.old out.new }
{
    let mut next: usize = 0;
    let mut start: usize = 0;
    for i in 0..n {
        let here = read::rest(ws, next);
        let later = after(here, ps, start);
        out.apart(b" ", i == 0);
        node(here, read::rest(ps, start), out);
        next = table_places::step(ws, next, size(here));
        start = later;
    }
}
