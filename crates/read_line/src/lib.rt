// One line of the sheet text: which row it breaks, or what it says, with its words put into the table that is being
// read.
#![tactic(auto)]

ghost use Rattle.std.specs.Prelude.{◌≡◌, ◌≤◌, length};
ghost use Rattle.read_predicate_line.specs.Predicate.{most_words};
ghost use Rattle.read_line.specs.Line.{line_with, line_with_after, line_read, line_after};

use line_order::{Counts, Key};
use model::{Model, Row};
pub use read_form::{Line, LineRead};

// The line that the key says, with memory for a predicate's nodes and their sorts. What is lent stays apart, here and
// at each line: the promises name the content of `words` afterwards alone, and of the memory its length.
fn read_with(
    line: Line<'_>,
    key: Key,
    counts: Counts,
    words: &mut [u32; Model::WORDS],
    at: usize,
    nodes: &mut [u32],
    sorts: &mut [bool],
) -> Result<LineRead, Row>
    ensures value { result ≡ line_with line.entry.bytes.now line.entry.ended key counts words.old at
        (length nodes.old) (length sorts.old) }
    ensures words_after { words.new ≡ line_with_after line.entry.bytes.now line.entry.ended key counts words.old at
        (length nodes.old) (length sorts.old) }
{
    match key {
        Key::Format => read_number_line::counted(
            line,
            b"format=",
            Model::FIRST_FORMAT as u32,
            Model::LAST_FORMAT as u32,
            words,
            at,
        ),
        Key::Actions => {
            read_number_line::counted(line, b"actions=", 0, Model::ACTIONS, words, at)
        }
        Key::Variables => {
            let most = Model::VARIABLES as u32;
            read_number_line::counted(line, b"variables=", 0, most, words, at)
        }
        Key::Variable => read_number_line::variable(line, words, at),
        Key::Automata => read_number_line::automata(line, counts, words, at),
        Key::Sync => read_composition_line::sync(line, counts, words, at),
        Key::Locations => {
            let most = Model::LOCATIONS as u32;
            read_number_line::counted(line, b"locations=", 1, most, words, at)
        }
        Key::Init => {
            let name = b"init=";
            read_predicate_line::location(line, name, counts, words, at, nodes, sorts)
        }
        Key::Inv => {
            let name = b"inv=";
            read_predicate_line::location(line, name, counts, words, at, nodes, sorts)
        }
        Key::Edges => read_number_line::edges(line, counts, words, at),
        Key::Edge => read_predicate_line::edge(line, counts, words, at, nodes, sorts),
        Key::Compose => read_composition_line::composition(line, counts, words, at, nodes, sorts),
        Key::End => Err(Row(2)),
    }
}

// With memory for so many nodes of a predicate, and for their sorts. It is never inlined, so that a short line is read
// on little stack.
#[inline(never)]
fn with_memory<const N: usize>(
    line: Line<'_>,
    key: Key,
    counts: Counts,
    words: &mut [u32; Model::WORDS],
    at: usize,
) -> Result<LineRead, Row>
    requires { N ≤ most_words }
    ensures value { result ≡ line_with line.entry.bytes.now line.entry.ended key counts words.old at N N }
    ensures words_after { words.new ≡
        line_with_after line.entry.bytes.now line.entry.ended key counts words.old at N N }
{
    let mut nodes = [0u32; N];
    let mut sorts = [false; N];
    read_with(line, key, counts, words, at, &mut nodes, &mut sorts)
}

// `words` is the table so far, `at` the place of its next word. The memory for a predicate is as much as the line
// needs: to clear the most would take longer than to read most lines.
#[tactic(auto, using(crate::proofs::DispatchLaws::room_laws))]
pub fn read(
    line: Line<'_>,
    key: Key,
    counts: Counts,
    words: &mut [u32; Model::WORDS],
    at: usize,
) -> Result<LineRead, Row>
    ensures { (result ≡ line_read line.entry.bytes.now line.entry.ended key counts words.old at)
        × (words.new ≡ line_after line.entry.bytes.now line.entry.ended key counts words.old at) }
{
    let long = line.bytes.len();
    if long <= 256 {
        return with_memory::<128>(line, key, counts, words, at);
    }
    if long <= 4096 {
        return with_memory::<2048>(line, key, counts, words, at);
    }
    with_memory::<32768>(line, key, counts, words, at)
}
