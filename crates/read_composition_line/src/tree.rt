// The line `compose=C`, the tree of the automata, with a P after each `ini`.
ghost use Rattle.std.specs.Prelude.{◌≡◌, ◌∷◌, suc, ◌≤◌, length, take};
ghost use Rattle.model.specs.Bounds.{max_tree_nodes};
ghost use Rattle.table_append.specs.Append.{next_place, put};
ghost use Rattle.read_predicate.specs.Scratch.{Scratch};
ghost use Rattle.read_starts.specs.Words.{starts_words};
ghost use Rattle.read_composition_line.specs.Composition.{tree_read, tree_after, starts_judged};
ghost use Rattle.read_composition_line.specs.Composition.{composed_read, composed_after, compose_read, compose_after};

use line_order::Counts;
use model::{Model, Row, Tree};
use read_form::{Line, LineRead};
use read_starts::Judged;
use read_tokens::numbers_sound;
use table_append::{append, append_one};

// The first n words of the nodes that were read. An array of a known length, since `append` asks how long a slice is.
fn append_nodes(words: &mut [u32; Model::WORDS], at: usize, memory: &[u32; 192], n: usize) -> usize
    ensures { (result ≡ next_place at (length (take n memory.now)))
        × (words.new ≡ put at (take n memory.now) words.old) }
{
    append(words, at, memory, n)
}

// Rows 13, 14 and 16; then the count of the nodes, and their words.
fn tree(
    part: &[u8],
    automata: usize,
    words: &mut [u32; Model::WORDS],
    at: usize,
) -> Result<LineRead, Row>
    ensures { (result ≡ tree_read automata part.now at)
        × (words.new ≡ tree_after automata part.now words.old at) }
{
    let mut memory = [0u32; 192];
    let c = read_composition::read(part, automata, &mut memory).ok_or(Row(13))?;
    if !c.ordered {
        return Err(Row(14));
    }
    if Tree::NODES < c.nodes {
        return Err(Row(16));
    }
    let first = append_one(words, at, c.nodes as u32);
    let next = append_nodes(words, first, &memory, c.next);
    Ok(LineRead {
        number: 0,
        nodes: 0,
        next,
    })
}

// How many P there are, and their words.
#[tactic(auto, using(table_append::proofs::Joined::more_laws))]
fn append_starts(
    part: &[u8],
    count: usize,
    words: &mut [u32; Model::WORDS],
    at: usize,
    nodes: &mut [u32],
) -> usize
    requires { count ≤ max_tree_nodes }
    ensures value { (result ≡ next_place at (suc (length (starts_words (length nodes.old) part.now))))
        × (words.new ≡ put at (count ∷ starts_words (length nodes.old) part.now)
        words.old) }
    ensures scratch { Scratch nodes.old nodes.new }
{
    let next = append_one(words, at, count as u32);
    read_starts::append(part, words, next, nodes)
}

// The P after each `ini`, by the table so far.
#[tactic(auto, using(crate::proofs::CompositionLaws::starts_by))]
fn starts(
    part: &[u8],
    counts: Counts,
    words: &[u32; Model::WORDS],
    nodes: &mut [u32],
    sorts: &mut [bool],
) -> Judged
    ensures value { result ≡ starts_judged counts words.now part.now (length nodes.old)
        (length sorts.old) }
    ensures scratch { Scratch nodes.old nodes.new
        × Scratch sorts.old sorts.new }
{
    let v = counts.variables;
    let before = counts.nodes;
    let ranges = table_line::ranges(words, v);
    read_starts::judge(part, v, ranges, before, nodes, sorts)
}

// The rows of the P's, and then those of the tree. Nothing is written where one is broken.
#[tactic(auto, using(crate::proofs::CompositionLaws::composed_laws))]
fn composed(
    part: &[u8],
    counts: Counts,
    words: &mut [u32; Model::WORDS],
    at: usize,
    nodes: &mut [u32],
    sorts: &mut [bool],
) -> Result<LineRead, Row>
    ensures value { result ≡ composed_read counts words.old part.now (length nodes.old)
        (length sorts.old) at }
    ensures words_after { words.new ≡ composed_after counts words.old part.now
        (length nodes.old) (length sorts.old) at }
    ensures scratch { Scratch nodes.old nodes.new
        × Scratch sorts.old sorts.new }
{
    let j = starts(part, counts, words, nodes, sorts);
    if let Some(row) = j.row {
        return Err(row);
    }
    let trees = tree(part, counts.automata, words, at)?;
    let next = append_starts(part, j.count, words, trees.next, nodes);
    Ok(LineRead {
        number: 0,
        nodes: j.nodes,
        next,
    })
}

// Rows 2, 3 and 5, and then those of the P's and of the tree.
#[tactic(auto, using(crate::proofs::CompositionLaws::composition_laws))]
pub fn composition(
    line: Line<'_>,
    counts: Counts,
    words: &mut [u32; Model::WORDS],
    at: usize,
    nodes: &mut [u32],
    sorts: &mut [bool],
) -> Result<LineRead, Row>
    ensures value { result ≡ compose_read line.entry.bytes.now line.entry.ended counts words.old
        (length nodes.old) (length sorts.old) at }
    ensures words_after { words.new ≡ compose_after line.entry.bytes.now line.entry.ended counts words.old
        (length nodes.old) (length sorts.old) at }
    ensures scratch { Scratch nodes.old nodes.new
        × Scratch sorts.old sorts.new }
{
    if line.misformed(b"compose=", 0) {
        return Err(Row(2));
    }
    let part = line.value(b"compose=");
    if !numbers_sound(part) {
        return Err(Row(3));
    }
    let a = counts.actions;
    if !read_composition::lists_sound(part, line_order::capped(a)) {
        return Err(Row(5));
    }
    composed(part, counts, words, at, nodes, sorts)
}
