// The merger: from a table, or from a sheet text, to the text of the merged sheet.
#![tactic(auto)]

ghost use Rattle.std.specs.Prelude.{◌≡◌, length};
ghost use Rattle.format.specs.Merger.{merge_answer, merge_after};
ghost use Rattle.merger.specs.Answers.{merge_of};
ghost use Rattle.merger.specs.Outcome.{outcome, outcome_after};

use model::{Model, Row};
pub use reader::Refusal;

// The length of the merged text, and the count of its edges.
#[derive(Clone, Copy, Debug, PartialEq, Eq)]
pub struct Merged {
    pub length: usize,
    pub edges: usize,
}

// Writes the text of the merged automaton. Rows 18, 19 and 31 to 35; a refusal has written nothing.
pub fn merge(table: &[u32], out: &mut [u8]) -> Result<Merged, Row>
    ensures value { result ≡ merge_of (merge_answer table.now (length out.old)) }
    ensures out_after { out.new
        ≡ merge_after (merge_answer table.now (length out.old)) out.old }
{
    let merged = merge_table::linearize(table);
    if let Some(row) = merged.row {
        return Err(row);
    }
    let length = write_words::write(&merged.table, out)?;
    Ok(Merged {
        length,
        edges: merged.edges,
    })
}

// Reads a sheet text and writes the merged text. A refusal has written nothing; one of the merger's has line 0.
pub fn merge_text(text: &[u8], out: &mut [u8]) -> Result<Merged, Refusal>
    ensures value { result ≡ outcome text.now (length out.old) }
    ensures out_after { out.new ≡ outcome_after text.now out.old }
{
    let mut table = [0u32; Model::WORDS];
    if let Err(refusal) = reader::read(text, &mut table) {
        return Err(refusal);
    }
    match merge(&table, out) {
        Ok(merged) => Ok(merged),
        Err(row) => Err(Refusal { row, line: 0 }),
    }
}
