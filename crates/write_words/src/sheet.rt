// All entries, in the order in which they are due: each a line, and the line behind it, if it has one.
#![tactic(auto, using(crate::proofs::SheetLaws::lines_laws))]

ghost use Rattle.write_words.specs.Growing.{Grew};
ghost use Rattle.write_words.specs.Text.{sheet_text};
ghost use Rattle.write_words.specs.Answer.{Spelt};

use crate::growing::Text;
use crate::line::{self};
use crate::read::{self};
use crate::writes::{self};
use line_order::Due;
use model::Model;

fn all_lines(table: &[u32], out: &mut Text)
    ensures { Grew (sheet_text table.now) out.old out.new }
{
    let mut due = Due::first();
    let mut at: usize = 0;
    // Each round writes an entry, which takes a word at least. So all entries of a table are written before the rounds
    // are over.
    for _ in 0..Model::WORDS + 1 {
        let key = due.key;
        if line_order::end(key) {
            return;
        }
        writes::entry(due, read::rest(table, at), out);
        due = due.after(read::count(read::rest(table, at), 0));
        at = table_places::step(table, at, line::size(key, read::rest(table, at)));
    }
}

// The table's text into the first bytes, up to the place that is answered; or None, and the bytes are anything. The
// words are not checked: those of a table that is no model's have a text too, which says nothing.
pub(crate) fn spell(table: &[u32], out: &mut [u8]) -> Option<usize>
    ensures { Spelt (sheet_text table.now) out.old out.new result }
{
    let mut text = Text {
        bytes: out,
        end: Some(0),
    };
    all_lines(table, &mut text);
    let n = text.end?;
    if n <= text.bytes.len() { Some(n) } else { None }
}
