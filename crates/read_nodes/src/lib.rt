// A predicate P from its bytes to node words, with every row that P can break: 3 and 6 to 11. P stands alone here: no
// line, no key and no table is known but the words of the variables' ranges.
#![tactic(auto)]

ghost use Rattle.std.specs.Prelude.{◌≡◌, length};
ghost use Rattle.read_predicate.specs.Scratch.{Scratch};
ghost use Rattle.read_nodes.specs.Nodes.{nodes_error, walk_error, told, span_fault, extent_fault, judged_in};
ghost use Rattle.read_nodes.specs.Nodes.{nodes_read, nodes_after};

use model::{Model, Row};
use read_words::WordsError;
use table_predicate::{Stopped, Walked};

// Row: the smallest row that P breaks. Full: P has more words than there are places, and what it breaks is not known.
#[derive(Clone, Copy, Debug, PartialEq, Eq)]
pub enum NodesError {
    Row(Row),
    Full,
}

impl From<WordsError> for NodesError {
    ghost from_gives = { λ w e. e ≡ nodes_error w };

    fn from(words: WordsError) -> NodesError {
        match words {
            WordsError::Stray => NodesError::Row(Row(6)),
            WordsError::Full => NodesError::Full,
        }
    }
}

// Nodes that make a predicate are no stray, so of these a walk ends too deep alone.
impl From<Stopped> for NodesError {
    ghost from_gives = { λ s e. e ≡ walk_error s };

    fn from(stopped: Stopped) -> NodesError {
        match stopped {
            Stopped::Deep => NodesError::Row(Row(9)),
            Stopped::Stray => NodesError::Row(Row(6)),
        }
    }
}

// Rows 10 and 11 of so many nodes, by how far the walk over them came.
#[tactic(auto, using(crate::proofs::NodesLaws::spanned_laws))]
fn spanned(walk: Walked, nodes: usize, before: usize) -> Result<usize, NodesError>
    ensures { result ≡ told nodes (span_fault before nodes walk) }
{
    if walk.leaves {
        return Err(NodesError::Row(Row(10)));
    }
    if !arithmetic::fits(before, nodes, Model::NODES) {
        return Err(NodesError::Row(Row(11)));
    }
    Ok(nodes)
}

// Rows 9, 10 and 11 of nodes that make a predicate.
#[tactic(auto, using(crate::proofs::NodesLaws::extent_laws))]
fn extent(nodes: &[u32], ranges: &[u32], before: usize) -> Result<usize, NodesError>
    ensures { result ≡ told (length nodes.now)
        (extent_fault ranges.now before nodes.now) }
{
    match table_predicate::walk(nodes, 0, ranges) {
        Ok(walk) => spanned(walk, nodes.len(), before),
        Err(ended) => match ended.why {
            Stopped::Deep => Err(ended.why.into()),
            Stopped::Stray => spanned(ended.walk, nodes.len(), before),
        },
    }
}

// Rows 6 to 11 of node words.
#[tactic(auto, using(crate::proofs::NodesLaws::judged_laws, read_predicate::proofs::ScratchLaws::scratch_laws))]
fn judged(
    nodes: &[u32],
    old: bool,
    variables: usize,
    ranges: &[u32],
    before: usize,
    sorts: &mut [bool],
) -> Result<usize, NodesError>
    ensures value { result ≡ judged_in old variables ranges.now before (length sorts.old)
        nodes.now }
    ensures scratch { Scratch sorts.old sorts.new }
{
    let n = nodes.len();
    if sorts.len() < n {
        return Err(NodesError::Full);
    }
    if !read_predicate::well_formed(nodes, n, sorts) {
        return Err(NodesError::Row(Row(6)));
    }
    if table_predicate::scan::names_outside(nodes, 0, n, variables) {
        return Err(NodesError::Row(Row(7)));
    }
    if old & table_predicate::scan::names_new(nodes, 0, n) {
        return Err(NodesError::Row(Row(8)));
    }
    extent(nodes, ranges, before)
}

// Reads the bytes of a P, of any length. Where `old`, P may name only old values. `ranges` has the variables' declared
// ranges as the table has them: LO and HI of variable K are the words 3K and 3K + 1. So many nodes were counted
// `before`. The nodes go into `nodes`; `sorts` is scratch memory. A word of P takes two bytes at least, so half as many
// places as P has bytes are enough of both.
pub fn read(
    part: &[u8],
    old: bool,
    variables: usize,
    ranges: &[u32],
    before: usize,
    nodes: &mut [u32],
    sorts: &mut [bool],
) -> Result<usize, NodesError>
    ensures value { result ≡ nodes_read part.now old variables ranges.now before
        (length nodes.old) (length sorts.old) }
    ensures nodes_after { (nodes.new ≡ nodes_after part.now nodes.old)
        × Scratch sorts.old sorts.new }
{
    if !read_tokens::numbers_sound(part) {
        return Err(NodesError::Row(Row(3)));
    }
    let n = read_words::read(part, nodes)?;
    judged(&nodes[..n], old, variables, ranges, before, sorts)
}
