// The lines that have one number, and the line of a variable's range.
ghost use Rattle.std.specs.Prelude.{◌≡◌, [], ◌∷◌};
ghost use Rattle.model.specs.Bounds.{max_automata, max_edges};
ghost use Rattle.model.specs.Lines as Lines;
ghost use Rattle.format.specs.Spelling.{spelling};
ghost use Rattle.read_numbers.specs.Number.{count_in, few_edges};
ghost use Rattle.read_numbers.specs.Range.{bounds_in};
ghost use Rattle.table_append.specs.Append.{next_place, put};
ghost use Rattle.table_line.specs.Line.{ranges_in};
ghost use Rattle.read_number_line.specs.Number.{number_read, number_after, known_owners, bounds_read, bounds_after};

use line_order::Counts;
use model::{Model, Row};
use read_form::{Line, LineRead};
use read_numbers::{few_edges, one_number, two_numbers};
use read_words::biased;
use table_append::{append_one, append_two};

// A line that counts something, or the format's.
#[tactic(auto, using(crate::proofs::NumberLaws::counting_laws))]
fn counting(
    count: Result<u32, Row>,
    words: &mut [u32; Model::WORDS],
    at: usize,
) -> Result<LineRead, Row>
    ensures { (result ≡ number_read count at) × (words.new ≡ number_after count at words.old) }
{
    let n = count?;
    let next = append_one(words, at, n);
    let number = arithmetic::index(n);
    Ok(LineRead {
        number,
        nodes: 0,
        next,
    })
}

// A variable's words: its range's, and nobody as its owner, which the line behind may replace.
#[tactic(auto, using(crate::proofs::NumberLaws::variable_laws))]
fn append_variable(words: &mut [u32; Model::WORDS], at: usize, low: u32, high: u32) -> usize
    ensures { (result ≡ next_place at 3)
        × (words.new ≡ put at (low ∷ high ∷ 0 ∷ []) words.old) }
{
    let next = append_two(words, at, low, high);
    append_one(words, next, 0)
}

// A variable's line, by its range's ends.
#[tactic(auto, using(crate::proofs::NumberLaws::ranging_laws))]
fn ranging(
    bounds: Result<(i32, i32), Row>,
    table: &mut [u32; Model::WORDS],
    at: usize,
) -> Result<LineRead, Row>
    ensures { (result ≡ bounds_read bounds at) × (table.new ≡ bounds_after bounds at table.old) }
{
    let (low, high) = bounds?;
    let next = append_variable(table, at, biased(low), biased(high));
    Ok(LineRead {
        number: 0,
        nodes: 0,
        next,
    })
}

// The line of a number from low to high, with the key `name`: the format's, or that of the actions, the variables, or
// an automaton's locations.
pub fn counted(
    line: Line<'_>,
    name: &[u8],
    low: u32,
    high: u32,
    words: &mut [u32; Model::WORDS],
    at: usize,
) -> Result<LineRead, Row>
    ensures { (result ≡ number_read (count_in name.now low high line.entry.bytes.now line.entry.ended) at)
        × (words.new ≡ number_after (count_in name.now low high line.entry.bytes.now line.entry.ended) at words.old) }
{
    counting(one_number(line, name, low, high), words, at)
}

// Row 50: no variable, by the words of them all, has an owner that is not among so many automata.
#[tactic(auto, using(crate::proofs::NumberLaws::known_laws))]
fn known_owners(variables: &[u32], count: Result<u32, Row>) -> Result<u32, Row>
    ensures { result ≡ known_owners variables.now count }
{
    let n = count?;
    if table_owners::beyond(variables, arithmetic::index(n)) {
        return Err(Row(50));
    }
    Ok(n)
}

// The number of automata, after the variables.
#[tactic(auto, using(crate::proofs::NumberLaws::on_laws), unfolding(format::specs::Spelling::spelling))]
pub fn automata(
    line: Line<'_>,
    counts: Counts,
    words: &mut [u32; Model::WORDS],
    at: usize,
) -> Result<LineRead, Row>
    ensures { (result ≡ number_read (known_owners (ranges_in words.old counts.variables)
        (count_in (spelling Lines.automata) 1 max_automata line.entry.bytes.now line.entry.ended)) at)
        × (words.new ≡ number_after (known_owners (ranges_in words.old counts.variables)
        (count_in (spelling Lines.automata) 1 max_automata line.entry.bytes.now line.entry.ended)) at words.old) }
{
    let v = counts.variables;
    let count = one_number(line, b"automata=", 1, Model::AUTOMATA as u32);
    let known = known_owners(table_line::ranges(words, v), count);
    counting(known, words, at)
}

// The number of an automaton's edges, after those of the automata before it.
#[tactic(auto, using(crate::proofs::NumberLaws::on_laws), unfolding(format::specs::Spelling::spelling))]
pub fn edges(
    line: Line<'_>,
    counts: Counts,
    words: &mut [u32; Model::WORDS],
    at: usize,
) -> Result<LineRead, Row>
    ensures { (result ≡ number_read
        (few_edges counts.edges (count_in (spelling Lines.edges) 0 max_edges line.entry.bytes.now line.entry.ended)) at)
        × (words.new ≡ number_after
        (few_edges counts.edges (count_in (spelling Lines.edges) 0 max_edges line.entry.bytes.now line.entry.ended)) at
        words.old) }
{
    let before = counts.edges;
    let count = one_number(line, b"edges=", 0, Model::EDGES as u32);
    counting(few_edges(before, count), words, at)
}

// A variable's range.
#[tactic(auto, using(crate::proofs::NumberLaws::on_laws), unfolding(format::specs::Spelling::spelling))]
pub fn variable(line: Line<'_>, words: &mut [u32; Model::WORDS], at: usize) -> Result<LineRead, Row>
    ensures { (result ≡ bounds_read (bounds_in (spelling Lines.variable) line.entry.bytes.now line.entry.ended) at)
        × (words.new ≡
        bounds_after (bounds_in (spelling Lines.variable) line.entry.bytes.now line.entry.ended) at words.old) }
{
    ranging(two_numbers(line, b"variable="), words, at)
}
