// The sheet text: read into a table, and written from one.
#![tactic(auto)]

mod sheet;
mod store;

ghost use Rattle.std.specs.Prelude.{Some, ◌≡◌, length};
ghost use Rattle.format.specs.Reader.{read_answer, table_after};
ghost use Rattle.reader.specs.Read.{read_of, refusal_text};

use model::{Model, Row};
use std::fmt;
pub use writer::write;

// Why a text is refused: the row, and the line, which is 0 where the row is 18 or 1.
#[derive(Clone, Copy, Debug, PartialEq, Eq)]
pub struct Refusal {
    pub row: Row,
    pub line: usize,
}

impl fmt::Display for Refusal {
    ghost output = { λ r. Some (refusal_text r) };

    fn fmt<W: fmt::Write>(&self, f: &mut fmt::Formatter<W>) -> fmt::Result {
        write!(f, "{}, line {}", self.row, self.line)
    }
}

// What stands behind a line: the owner of a variable; or the list of the variables that an edge writes, which are all
// but this set.
#[derive(Clone, Copy, Debug, PartialEq, Eq)]
pub enum Behind {
    Owner,
    Writes(usize),
}

// Where the reader stands: the key that is due with what comes after it, what was counted, the place of the next word
// in the table and of the next byte in the text; and what is due first, behind the line before.
#[derive(Clone, Copy, Debug, PartialEq, Eq)]
pub struct Place {
    pub due: line_order::Due,
    pub counts: line_order::Counts,
    pub at: usize,
    pub byte: usize,
    pub behind: Option<Behind>,
}

// Reads a text into the table's first words. A refused text leaves the table as it was.
pub fn read(text: &[u8], table: &mut [u32]) -> Result<(), Refusal>
    ensures { (result ≡ read_of (read_answer text.now (length table.old)))
        × (table.new ≡ table_after text.now table.old) }
{
    if table.len() < Model::WORDS {
        return Err(Refusal {
            row: Row(18),
            line: 0,
        });
    }
    if Model::BYTES < text.len() {
        return Err(Refusal {
            row: Row(1),
            line: 0,
        });
    }
    let mut words = [0u32; Model::WORDS];
    sheet::sheet(text, &mut words)?;
    store::store(&words, table);
    Ok(())
}
