// A variable's line with the two ends of its range: rows 2, 3 and 4.
ghost use Rattle.std.specs.Prelude.{◌≡◌};
ghost use Rattle.model.specs.Bounds.{least_number, greatest_number};
ghost use Rattle.text_numbers.specs.Number.{integer_in};
ghost use Rattle.read_numbers.specs.Range.{ordered_from, bounds_of, bounds_in};

use model::{Model, Row};
use read_form::{Line, field};

// A number in a range's line.
fn end_of(part: &[u8]) -> Option<i32>
    ensures { result ≡ integer_in part.now least_number greatest_number }
{
    text_numbers::integer(part, Model::LEAST_NUMBER, Model::GREATEST_NUMBER)
}

// Row 4: the ends are in order.
#[tactic(auto, using(crate::proofs::RangeLaws::ordered_laws))]
fn ordered(low: i32, high: i32) -> Result<(i32, i32), Row>
    ensures { result ≡ ordered_from low high }
{
    if low <= high {
        return Ok((low, high));
    }
    Err(Row(4))
}

// Row 3 of both ends, then row 4.
#[tactic(auto, using(crate::proofs::RangeLaws::both_laws))]
fn both(low: Option<i32>, high: Option<i32>) -> Result<(i32, i32), Row>
    ensures { result ≡ bounds_of low high }
{
    ordered(low.ok_or(Row(3))?, high.ok_or(Row(3))?)
}

// Rows 2, 3 and 4 of a variable's line: its range's ends, or the smallest row that the line breaks.
#[tactic(auto, using(crate::proofs::RangeLaws::bounds_laws))]
pub fn two_numbers(line: Line<'_>, name: &[u8]) -> Result<(i32, i32), Row>
    ensures { result ≡ bounds_in name.now line.entry.bytes.now line.entry.ended }
{
    if line.misformed(name, 2) {
        return Err(Row(2));
    }
    let value = line.value(name);
    both(end_of(field(value, 0)), end_of(field(value, 1)))
}
