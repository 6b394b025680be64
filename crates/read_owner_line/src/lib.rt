// The line `owner=none` or `owner=K` behind a variable: the owner's word, or the row that the line breaks.
#![tactic(auto)]

ghost use Rattle.std.specs.Prelude.{◌≡◌};
ghost use Rattle.read_owner_line.specs.Owner.{owner_in, owner_read};

use model::{Model, Row};
use read_form::Line;

// Row 3 of what stands after the key.
#[tactic(auto, using(crate::proofs::OwnerLaws::owner_laws))]
fn owner(value: &[u8]) -> Result<u32, Row>
    ensures { result ≡ owner_in value.now }
{
    if text_bytes::same(value, b"none") {
        return Ok(0);
    }
    match text_numbers::natural(value, Model::LAST_AUTOMATON) {
        Some(k) => Ok(k + 1),
        None => Err(Row(3)),
    }
}

// The owner's word, 0 for nobody and K + 1 for automaton K, or the smallest row that the line breaks.
#[tactic(auto, using(crate::proofs::OwnerLaws::read_laws))]
pub fn read(line: Line<'_>) -> Result<u32, Row>
    ensures { result ≡ owner_read line.entry.bytes.now line.entry.ended }
{
    if line.misformed(b"owner=", 1) {
        return Err(Row(2));
    }
    owner(line.value(b"owner="))
}
