// The text that a table's words spell, whatever words they are: the table is not checked.
#![tactic(auto)]

mod growing;
mod line;
mod owner;
mod predicate;
mod read;
mod sheet;
mod tree;
mod writes;

ghost use Rattle.std.specs.Prelude.{length};
ghost use Rattle.model.specs.Bounds.{max_bytes};
ghost use Rattle.write_words.specs.Answer.{Answered, words_answer};

use model::{Model, Row};

// No sheet's text is longer.
const BYTES: usize = Model::BYTES;

// What the words spell, by way of a buffer for the text: row 35 where that or the lent one has no room for it. The text
// is copied as the last act.
#[tactic(auto, using(crate::proofs::SheetLaws::deliver_laws))]
fn deliver(table: &[u32], text: &mut [u8], out: &mut [u8]) -> Result<usize, Row>
    ensures { Answered
        (words_answer (length text.old) table.now (length out.old))
        out.old out.new result }
{
    let Some(n) = sheet::spell(table, text) else {
        return Err(Row(35));
    };
    if out.len() < n {
        return Err(Row(35));
    }
    out[..n].copy_from_slice(&text[..n]);
    Ok(n)
}

// The same by way of a buffer of its own. On the table of a model this is its text or row 35, since no sheet's text is
// longer than that buffer. Other words may spell more, and row 35 then refuses them whatever is lent.
pub fn write(table: &[u32], out: &mut [u8]) -> Result<usize, Row>
    ensures { Answered (words_answer max_bytes table.now (length out.old))
        out.old out.new result }
{
    let mut text = [0u8; BYTES];
    deliver(table, &mut text, out)
}
