// The nodes of a composition, left to right: rows 13, 14 and 16 in one pass, and the words of the nodes. The P after an
// `ini` is passed over.
ghost use Rattle.std.specs.Prelude.{◌≡◌, ◌*◌, ◌^◌, ◌≤◌};
ghost use Rattle.read_composition.specs.Read.{IsSmall, stepped, ending, next_after, put_after, HasRead};
ghost use Rattle.read_composition.specs.Read.{place_beyond};

use crate::token::{self, Kind};

// Of a tree: whether its leaves are the automata in order, how many nodes it has, and where its words end.
#[derive(Clone, Copy, Debug, PartialEq, Eq)]
pub struct Composition {
    pub ordered: bool,
    pub nodes: usize,
    pub next: usize,
}

// So far: how many subtrees are still to come, how many leaves there were and whether each was in order, how many
// nodes, and where the next words go.
#[derive(Clone, Copy, Debug, PartialEq, Eq)]
pub struct Walk {
    pub owed: usize,
    pub leaves: usize,
    pub ordered: bool,
    pub nodes: usize,
    pub next: usize,
}

// The words of a node: `par` is 0; `syn` is 1 and its set; `ini` is a `syn` with no action; leaf K is 2 + K. The words
// of a 65th node are not written.
fn put(out: &mut [u32; 192], k: Kind, nodes: usize, next: usize) -> usize
    requires { (next ≤ 3 * nodes) × IsSmall k }
    ensures { (result ≡ next_after k nodes next) × (out.new ≡ put_after k nodes next out.old) }
{
    if model::Tree::NODES <= nodes {
        return next;
    }
    match k {
        Kind::Par => {
            out[next] = 0;
            next + 1
        }
        Kind::Syn | Kind::Stray => next,
        Kind::Set(low, high) => {
            out[next] = 1;
            out[next + 1] = low;
            out[next + 2] = high;
            next + 3
        }
        Kind::Ini => {
            out[next] = 1;
            out[next + 1] = 0;
            out[next + 2] = 0;
            next + 3
        }
        Kind::Leaf(a) => {
            out[next] = 2 + a;
            next + 1
        }
    }
}

// The node begins one of the subtrees that are owed.
#[tactic(auto, using(crate::proofs::ComposeLaws::step_laws))]
fn step(w: Walk, k: Kind, next: usize) -> Walk
    requires { (1 ≤ w.owed) × (w.owed ≤ 2 ^ 63) × (w.leaves ≤ 2 ^ 63) × (w.nodes ≤ 2 ^ 63) }
    ensures { result ≡ stepped k next w }
{
    if matches!(k, Kind::Syn | Kind::Stray) {
        return w;
    }
    let node = Walk {
        nodes: w.nodes + 1,
        next,
        ..w
    };
    match k {
        Kind::Par => Walk {
            owed: w.owed + 1,
            ..node
        },
        Kind::Leaf(a) => Walk {
            owed: w.owed - 1,
            leaves: w.leaves + 1,
            ordered: w.ordered & (arithmetic::index(a) == w.leaves),
            ..node
        },
        _ => node,
    }
}

#[tactic(auto, using(crate::proofs::ComposeLaws::end_laws))]
fn ended(w: Walk, automata: usize) -> Option<Composition>
    ensures { result ≡ ending automata w }
{
    if w.owed != 0 {
        return None;
    }
    Some(Composition {
        ordered: w.ordered & (w.leaves == automata),
        nodes: w.nodes,
        next: w.next,
    })
}

// Where the token after one of this kind stands, or after its P: `next` is the place right after it.
#[tactic(auto, using(crate::proofs::Beyond::beyond_laws))]
fn beyond(part: &[u8], next: usize, k: Kind) -> usize
    ensures { result ≡ place_beyond part.now next k }
{
    if token::is_ini(k) {
        return read_extent::after(part, next);
    }
    next
}

// The tree that the tokens make, if they make one. The words go into `out` from its start, of at most 64 nodes; a node
// has at most three.
pub fn read(part: &[u8], automata: usize, out: &mut [u32; 192]) -> Option<Composition>
    ensures { HasRead automata part.now out.old out.new result }
{
    let mut at = 0;
    let mut due = false;
    let mut w = Walk {
        owed: 1,
        leaves: 0,
        ordered: true,
        nodes: 0,
        next: 0,
    };
    // Stays an index loop: `read_extent::after` answers with the place where the walk goes on.
    while at <= part.len() {
        let end = text_bytes::find(part, at, b' ');
        let k = token::kind_of(&part[at..end], due);
        if (w.owed == 0) | token::is_stray(k) {
            return None;
        }
        let next = put(out, k, w.nodes, w.next);
        w = step(w, k, next);
        due = token::is_syn(k);
        at = beyond(part, end + 1, k);
    }
    ended(w, automata)
}
