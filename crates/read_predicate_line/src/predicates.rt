// The lines `init=P` and `inv=P`, and the predicate P of these and of an edge, with memory for its nodes.
ghost use Rattle.std.specs.Prelude.{◌≡◌, ◌∷◌, suc, ◌≤◌, length, take};
ghost use Rattle.model.specs.Bounds.{max_nodes};
ghost use Rattle.read_predicate.specs.Scratch.{Scratch};
ghost use Rattle.read_nodes.specs.Nodes.{nodes_after};
ghost use Rattle.table_append.specs.Append.{next_place, put};
ghost use Rattle.read_predicate_line.specs.Predicate.{predicate_read, by_row, located_read, located_after};
ghost use Rattle.read_predicate_line.specs.Predicate.{location_read, location_after};

use line_order::Counts;
use model::{Model, Row};
use read_form::{Line, LineRead};
use read_nodes::NodesError;

// The predicate that the bytes spell, by the table so far; where `old`, it may name only old values. Where there is
// no room, it has more words than a text can have: row 6.
pub(crate) fn predicate(
    part: &[u8],
    old: bool,
    counts: Counts,
    words: &[u32; Model::WORDS],
    nodes: &mut [u32],
    sorts: &mut [bool],
) -> Result<usize, Row>
    ensures value { result ≡ by_row (predicate_read part.now old counts words.now (length nodes.old)
        (length sorts.old)) }
    ensures nodes_after { (nodes.new ≡ nodes_after part.now nodes.old)
        × Scratch sorts.old sorts.new }
{
    let v = counts.variables;
    let before = counts.nodes;
    let ranges = table_line::ranges(words, v);
    match read_nodes::read(part, old, v, ranges, before, nodes, sorts) {
        Ok(n) => Ok(n),
        Err(NodesError::Row(row)) => Err(row),
        Err(NodesError::Full) => Err(Row(6)),
    }
}

// The count of a predicate's nodes, and the nodes: the first of `from`.
pub(crate) fn append_nodes(
    words: &mut [u32; Model::WORDS],
    at: usize,
    from: &[u32],
    n: usize,
) -> usize
    requires { n ≤ max_nodes }
    ensures { (result ≡ next_place at (suc (length (take n from.now))))
        × (words.new ≡ put at (n ∷ take n from.now) words.old) }
{
    let next = table_append::append_one(words, at, n as u32);
    table_append::append(words, next, from, n)
}

// The value of a location's line: the rows of P. Nothing is written where one is broken.
fn located(
    value: &[u8],
    counts: Counts,
    words: &mut [u32; Model::WORDS],
    at: usize,
    nodes: &mut [u32],
    sorts: &mut [bool],
) -> Result<LineRead, Row>
    ensures value { result ≡ located_read counts words.old value.now (length nodes.old)
        (length sorts.old) at }
    ensures words_after { words.new ≡ located_after counts words.old value.now
        (length nodes.old) (length sorts.old) at }
    ensures scratch { Scratch nodes.old nodes.new
        × Scratch sorts.old sorts.new }
{
    let n = predicate(value, true, counts, words, nodes, sorts)?;
    let next = append_nodes(words, at, nodes, n);
    Ok(LineRead {
        number: 0,
        nodes: n,
        next,
    })
}

// A location's line with the key `name`, `init=` or `inv=`: row 2, and those of P.
pub fn location(
    line: Line<'_>,
    name: &[u8],
    counts: Counts,
    words: &mut [u32; Model::WORDS],
    at: usize,
    nodes: &mut [u32],
    sorts: &mut [bool],
) -> Result<LineRead, Row>
    ensures value { result ≡ location_read name.now line.entry.bytes.now line.entry.ended counts words.old
        (length nodes.old) (length sorts.old) at }
    ensures words_after { words.new ≡ location_after name.now line.entry.bytes.now line.entry.ended counts
        words.old (length nodes.old) (length sorts.old) at }
    ensures scratch { Scratch nodes.old nodes.new
        × Scratch sorts.old sorts.new }
{
    if line.misformed(name, 1) {
        return Err(Row(2));
    }
    located(line.value(name), counts, words, at, nodes, sorts)
}
