// The nodes of a tree, one after the other.
ghost use Rattle.std.specs.Prelude.{◌≡◌, ◌≤◌};
ghost use Rattle.model.specs.Bounds.{max_tree_nodes};
ghost use Rattle.table_tree.specs.Nodes.{node_at, after, owing, skip_from};

// The node at a place, and where the words after it begin; or that none stands there. A `syn` has its set's two words.
// Stays an enum with a node that is none: the definitions, in specs/Nodes.antt and of the searches above, name `Stray`.
#[derive(Clone, Copy, Debug, PartialEq, Eq)]
pub enum Found {
    Par(usize),
    Syn(u32, u32, usize),
    Leaf(usize, usize),
    Stray,
}

#[tactic(auto, using(crate::proofs::NodeLaws::node_laws))]
pub fn node_at(words: &[u32], at: usize) -> Found
    ensures { result ≡ node_at words.now at }
{
    if words.len() <= at {
        return Found::Stray;
    }
    let w = words[at];
    if w == 0 {
        return Found::Par(at + 1);
    }
    if w != 1 {
        return Found::Leaf((w - 2) as usize, at + 1);
    }
    if words.len() - at < 3 {
        return Found::Stray;
    }
    Found::Syn(words[at + 1], words[at + 2], at + 3)
}

#[tactic(auto, unfolding(crate::specs::Nodes::after))]
fn after(f: Found, at: usize) -> usize
    ensures { result ≡ after f at }
{
    match f {
        Found::Par(next) | Found::Syn(_, _, next) | Found::Leaf(_, next) => next,
        Found::Stray => at,
    }
}

// Of the subtrees that are still to come, how many are after a node: `par` has two for the one that it is.
#[tactic(auto, unfolding(crate::specs::Nodes::owing))]
fn owing(f: Found, owed: usize) -> usize
    requires { (1 ≤ owed) × (owed ≤ 64) }
    ensures { result ≡ owing f owed }
{
    match f {
        Found::Par(_) => owed + 1,
        Found::Syn(_, _, _) => owed,
        Found::Leaf(_, _) => owed - 1,
        Found::Stray => 0,
    }
}

// Where the subtree at `at` ends. No tree has more nodes than `NODES`.
#[tactic(auto, using(crate::proofs::NodeLaws::skip_laws))]
pub fn skip(words: &[u32], at: usize) -> usize
    ensures { result ≡ skip_from words.now max_tree_nodes 1 at }
{
    let mut owed = 1;
    let mut next = at;
    for _ in 0..model::Tree::NODES {
        if owed == 0 {
            return next;
        }
        let found = node_at(words, next);
        next = after(found, next);
        owed = owing(found, owed);
    }
    next
}
