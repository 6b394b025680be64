// The line `writes=LIST` behind an edge: the row that it breaks, if any. It has no words in the table, for the edge
// says the same.
#![tactic(auto)]

ghost use Rattle.std.specs.Prelude.{◌≡◌};
ghost use Rattle.read_writes_line.specs.Writes.{asked_of, list_row, told, writes_row};

use model::{Model, Row};
use read_form::Line;
use read_list::{Asked, Listed};

// What is asked of a list of variables, where the model has so many.
#[tactic(auto, using(crate::proofs::WritesLaws::asked_laws))]
fn asked(variables: usize) -> Asked
    ensures { result ≡ asked_of variables }
{
    Asked {
        most: Model::LAST_VARIABLE,
        least: 0,
        below: variables,
        all: table_writes::all(),
    }
}

// Rows 3, 5, 7 and 44 of a list, where the edge leaves `rest` alone.
#[tactic(auto, using(crate::proofs::WritesLaws::judged_laws))]
fn judged(list: Option<Listed>, rest: u64) -> Result<(), Row>
    ensures { result ≡ told (list_row list rest) }
{
    let list = list.ok_or(Row(3))?;
    if !list.rising {
        return Err(Row(5));
    }
    if list.outside {
        return Err(Row(7));
    }
    if list.rest != rest {
        return Err(Row(44));
    }
    Ok(())
}

// The model has so many variables, and the edge names the new values of all but the set `rest`. An error is the
// smallest row that the line breaks.
#[tactic(auto, using(crate::proofs::WritesLaws::read_laws))]
pub fn read(line: Line<'_>, variables: usize, rest: usize) -> Result<(), Row>
    ensures { result ≡ told (writes_row line.entry.bytes.now line.entry.ended variables rest) }
{
    if line.misformed(b"writes=", 0) {
        return Err(Row(2));
    }
    let q = asked(variables);
    let list = read_list::read(line.value(b"writes="), q);
    judged(list, rest as u64)
}
