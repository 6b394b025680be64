// The writer of sheets: from a table to the text.
#![tactic(auto)]

ghost use Rattle.std.specs.Prelude.{length};
ghost use Rattle.format.specs.Writer.{write_answer};
ghost use Rattle.write_words.specs.Answer.{Answered};

use model::Row;

// The text of the model whose table this is. Rows 18, 19 and 35; a refusal has written nothing.
pub fn write(table: &[u32], out: &mut [u8]) -> Result<usize, Row>
    ensures { Answered (write_answer table.now (length out.old))
        out.old out.new result }
{
    table_check::check(table)?;
    write_words::write(table, out)
}
