// The reader, the writer, the merger and the judges for C and Rust: every answer is one number, and those of a run
// are a list of them.
//
// A slice is a pointer and a length there. Nothing is kept between calls.
#![tactic(auto)]

mod run;

ghost use Rattle.std.specs.Prelude.{◌≡◌, length};
ghost use Rattle.model.specs.Judge.{step_answer, environment_answer};
ghost use Rattle.model.specs.Table.{open_table};
ghost use Rattle.format.specs.Merger.{merge_answer, merge_after};
ghost use Rattle.format.specs.Reader.{read_answer, table_after};
ghost use Rattle.format.specs.Writer.{write_answer, buffer_after};
ghost use Rattle.judge_call.specs.Answers.{answer_number};
ghost use Rattle.exports.specs.Numbers.{read_number, write_number, merge_number, size_number};

// Reads a text into the table's first words: 0, or 2^32 times the row that refuses plus its line, when the table
// is as it was.
#[unsafe(no_mangle)]
pub extern "C" fn sheet_read(text: &[u8], table: &mut [u32]) -> u64
    ensures value { result ≡ read_number (read_answer text.now (length table.old)) }
    ensures table_after { table.new ≡ table_after text.now table.old }
{
    answer_numbers::read_number(reader::read(text, table))
}

// How many actions, variables and automata the table's sheet has: 2^16 times the first plus 2^8 times the second plus
// the third; or 2^32 times the row that refuses the table.
#[unsafe(no_mangle)]
pub extern "C" fn sheet_size(table: &[u32]) -> u64
    ensures { result ≡ size_number (open_table table.now) }
{
    answer_numbers::size_number(judge::size(table))
}

// May the composition take the action? 0 no, 1 yes with the mark false, 2 yes with the mark true, 100 + row refused.
#[unsafe(no_mangle)]
pub extern "C" fn sheet_step(
    table: &[u32],
    phase: u32,
    locations: &[u32],
    values: &[i32],
    action: u32,
    new_locations: &[u32],
    new_values: &[i32],
) -> u32
    ensures { result ≡ answer_number (step_answer table.now phase locations.now
        values.now action new_locations.now new_values.now) }
{
    judge::number(judge::step(
        table,
        phase,
        locations,
        values,
        action,
        new_locations,
        new_values,
    ))
}

// May the variables change while every automaton is still? 0 no, 1 yes, 100 + row refused.
#[unsafe(no_mangle)]
pub extern "C" fn sheet_environment(
    table: &[u32],
    phase: u32,
    locations: &[u32],
    values: &[i32],
    new_values: &[i32],
) -> u32
    ensures { result ≡ answer_number (environment_answer table.now phase locations.now
        values.now new_values.now) }
{
    judge::number(judge::environment(table, phase, locations, values, new_values))
}

// Writes the text of a table: its length, or 2^32 times the row that refuses, when `out` is as it was.
#[unsafe(no_mangle)]
pub extern "C" fn sheet_write(table: &[u32], out: &mut [u8]) -> u64
    ensures value { result ≡ write_number (write_answer table.now (length out.old)) }
    ensures out_after { out.new ≡ buffer_after (write_answer table.now (length out.old))
        out.old }
{
    answer_numbers::write_number(writer::write(table, out))
}

// Writes the text of the merged automaton: 2^17 times its edges plus its length, or 2^32 times the row that refuses,
// when `out` is as it was.
#[unsafe(no_mangle)]
pub extern "C" fn sheet_merge(table: &[u32], out: &mut [u8]) -> u64
    ensures value { result ≡ merge_number (merge_answer table.now (length out.old)) }
    ensures out_after { out.new ≡ merge_after (merge_answer table.now (length out.old))
        out.old }
{
    answer_numbers::merge_number(merger::merge(table, out))
}
