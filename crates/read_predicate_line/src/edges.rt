// The line `edge=FROM,ACT,TO,P`.
ghost use Rattle.std.specs.Prelude.{◌≡◌, ◌∷◌, suc, ◌≤◌, length, take};
ghost use Rattle.model.specs.Bounds.{max_nodes};
ghost use Rattle.read_predicate.specs.Scratch.{Scratch};
ghost use Rattle.table_append.specs.Append.{next_place, put};
ghost use Rattle.table_writes.specs.Sets.{all_variables, rest_of};
ghost use Rattle.read_predicate_line.specs.Edge.{value_read, after_value, edge_read, edge_after};

use crate::predicates;
use line_order::Counts;
use model::{Model, Row};
use read_edge::{Ends, astray, read_ends};
use read_form::{Line, LineRead, field};

// FROM, ACT, TO, and then a predicate's words.
fn append_edge(
    words: &mut [u32; Model::WORDS],
    at: usize,
    ends: Ends,
    nodes: &[u32],
    n: usize,
) -> usize
    requires { n ≤ max_nodes }
    ensures { (result ≡ next_place at (suc (suc (suc (suc (length (take n nodes.now)))))))
        × (words.new ≡ put at
        (ends.from ∷ ends.action ∷ ends.to ∷ n ∷ take n nodes.now) words.old) }
{
    let second = table_append::append_one(words, at, ends.from);
    let third = table_append::append_one(words, second, ends.action);
    let fourth = table_append::append_one(words, third, ends.to);
    predicates::append_nodes(words, fourth, nodes, n)
}

// The variables whose new value none of the first n nodes names.
fn left_alone(nodes: &[u32], n: usize) -> usize
    ensures { result ≡ rest_of all_variables (take n nodes.now) }
{
    let set = table_writes::unwritten(nodes, 0, n);
    set as usize
}

// What stands after the key: row 3, the rows of P, where new values may stand, and then row 12. Nothing is written
// where one is broken.
fn read_value(
    value: &[u8],
    counts: Counts,
    words: &mut [u32; Model::WORDS],
    at: usize,
    nodes: &mut [u32],
    sorts: &mut [bool],
) -> Result<LineRead, Row>
    ensures value { result ≡ value_read counts words.old value.now (length nodes.old)
        (length sorts.old) at }
    ensures words_after { words.new ≡ after_value counts words.old value.now
        (length nodes.old) (length sorts.old) at }
    ensures scratch { Scratch nodes.old nodes.new
        × Scratch sorts.old sorts.new }
{
    let ends = read_ends(value).ok_or(Row(3))?;
    let n = predicates::predicate(field(value, 3), false, counts, words, nodes, sorts)?;
    if astray(counts, ends) {
        return Err(Row(12));
    }
    let number = left_alone(nodes, n);
    let next = append_edge(words, at, ends, nodes, n);
    Ok(LineRead {
        number,
        nodes: n,
        next,
    })
}

// Row 2, and then those of the value.
pub fn edge(
    line: Line<'_>,
    counts: Counts,
    words: &mut [u32; Model::WORDS],
    at: usize,
    nodes: &mut [u32],
    sorts: &mut [bool],
) -> Result<LineRead, Row>
    ensures value { result ≡ edge_read line.entry.bytes.now line.entry.ended counts words.old (length nodes.old)
        (length sorts.old) at }
    ensures words_after { words.new ≡ edge_after line.entry.bytes.now line.entry.ended counts words.old
        (length nodes.old) (length sorts.old) at }
    ensures scratch { Scratch nodes.old nodes.new
        × Scratch sorts.old sorts.new }
{
    if line.misformed(b"edge=", 4) {
        return Err(Row(2));
    }
    read_value(line.value(b"edge="), counts, words, at, nodes, sorts)
}
