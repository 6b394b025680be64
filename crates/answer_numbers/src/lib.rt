// Answers as one number, for callers in C and Rust. Each part has its own bits; of a part that is larger the low bits
// are taken, and no answer of this tool has such a part (the laws of exports).
#![tactic(auto)]

ghost use Rattle.std.specs.Prelude.{◌≡◌, ◌+◌, ◌*◌, ◌%◌, ◌^◌};
ghost use Rattle.answer_numbers.specs.Told.{told_number, written_number, merged_number, ran_number, counted_number};

use judge::{Phase, RunError, TableSize};
use merger::Merged;
use model::Row;
use reader::Refusal;

// The row in the upper 32 bits, the line in the lower.
fn row_and_line(refusal: Refusal) -> u64
    ensures { result ≡ refusal.row.0 * 2 ^ 32 + refusal.line % 2 ^ 32 }
{
    let Refusal { row, line } = refusal;
    u64::from(row.0) * 4294967296 + (line % 4294967296) as u64
}

// The row in the upper 32 bits.
fn row_alone(row: Row) -> u64
    ensures { result ≡ row.0 * 2 ^ 32 }
{
    u64::from(row.0) * 4294967296
}

#[tactic(auto, unfolding(crate::specs::Told::told_number))]
pub fn read_number(answer: Result<(), Refusal>) -> u64
    ensures { result ≡ told_number answer }
{
    answer.map_or_else(row_and_line, |()| 0)
}

#[tactic(auto, unfolding(crate::specs::Told::written_number))]
pub fn write_number(answer: Result<usize, Row>) -> u64
    ensures { result ≡ written_number answer }
{
    answer.map_or_else(row_alone, |length| length as u64)
}

// 17 bits for the length, and the 15 above them for the edges.
fn edges_and_length(merged: Merged) -> u64
    ensures { result ≡ merged.edges % 2 ^ 15 * 2 ^ 17 + merged.length % 2 ^ 17 }
{
    let Merged { length, edges } = merged;
    (edges % 32768) as u64 * 131072 + (length % 131072) as u64
}

#[tactic(auto, unfolding(crate::specs::Told::merged_number))]
pub fn merge_number(answer: Result<Merged, Row>) -> u64
    ensures { result ≡ merged_number answer }
{
    answer.map_or_else(row_alone, edges_and_length)
}

// The phase at the end of a run, or 100 and the row. A list's own faults have numbers that no row has.
#[tactic(auto, unfolding(crate::specs::Told::ran_number))]
pub fn run_number(ran: Result<Phase, RunError>) -> u32
    ensures { result ≡ ran_number ran }
{
    match ran {
        Ok(phase) => judge::phase_number(phase),
        Err(RunError::Refused(row)) => 100u32.wrapping_add(row.0),
        Err(RunError::Uneven) => 201,
        Err(RunError::AnswersShort) => 202,
        Err(RunError::EndShort) => 203,
    }
}

// 16 bits for the actions, 8 for the variables, 8 for the automata.
fn counts(size: TableSize) -> u64
    ensures { result ≡ size.actions % 2 ^ 16 * 2 ^ 16 + size.variables % 2 ^ 8 * 2 ^ 8 + size.automata % 2 ^ 8 }
{
    let TableSize {
        actions,
        variables,
        automata,
    } = size;
    (actions % 65536) as u64 * 65536 + (variables % 256) as u64 * 256 + (automata % 256) as u64
}

#[tactic(auto, unfolding(crate::specs::Told::counted_number))]
pub fn size_number(size: Result<TableSize, Row>) -> u64
    ensures { result ≡ counted_number size }
{
    size.map_or_else(row_alone, counts)
}
