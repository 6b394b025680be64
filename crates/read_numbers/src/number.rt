// A line with one number: rows 2 and 3, and row 15 of the number of edges.
ghost use Rattle.std.specs.Prelude.{◌≡◌};
ghost use Rattle.read_numbers.specs.Number.{count_in, few_edges};

use model::{Model, Row};
use read_form::Line;

// Rows 2 and 3 of a line with one number, from low to high: the number, or the smallest row that the line breaks.
#[tactic(auto, using(crate::proofs::NumberLaws::number_laws))]
pub fn one_number(line: Line<'_>, name: &[u8], low: u32, high: u32) -> Result<u32, Row>
    ensures { result ≡ count_in name.now low high line.entry.bytes.now line.entry.ended }
{
    if line.misformed(name, 1) {
        return Err(Row(2));
    }
    let n = text_numbers::natural(line.value(name), high).ok_or(Row(3))?;
    if n < low {
        return Err(Row(3));
    }
    Ok(n)
}

// Row 15: `before` edges, and so many more.
#[tactic(auto, using(crate::proofs::NumberLaws::few_laws))]
pub fn few_edges(before: usize, count: Result<u32, Row>) -> Result<u32, Row>
    ensures { result ≡ few_edges before count }
{
    let n = count?;
    if !arithmetic::fits(before, arithmetic::index(n), Model::EDGES) {
        return Err(Row(15));
    }
    Ok(n)
}
