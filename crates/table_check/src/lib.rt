// Is this table one that an accepted text gives? Rows 18 and 19.
#![tactic(auto)]

mod sheet;

ghost use Rattle.std.specs.Prelude.{◌≡◌};
ghost use Rattle.model.specs.Table.{open_table};
ghost use Rattle.table_check.specs.Check.{answered};

use line_order::{Counts, Due};
use model::{Model, Row};

// Where a scan over the lines stands: what is due, what was counted, and the index of the next word.
#[derive(Clone, Copy, Debug, PartialEq, Eq)]
pub struct Scan {
    pub due: Due,
    pub counts: Counts,
    pub at: usize,
}

// The table's first words, as many as a table has; what stands after them is not read.
pub fn check(table: &[u32]) -> Result<(), Row>
    ensures { result ≡ answered (open_table table.now) }
{
    if table.len() < Model::WORDS {
        return Err(Row(18));
    }
    let words = &table[..Model::WORDS];
    if sheet::sheet(words) {
        Ok(())
    } else {
        Err(Row(19))
    }
}
