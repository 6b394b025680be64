// An edge's FROM, ACT and TO: row 3 of each, and row 12.
#![tactic(auto)]

ghost use Rattle.std.specs.Prelude.{◌≡◌};
ghost use Rattle.read_edge.specs.Edge.{ends_in, astray};

use line_order::Counts;
use model::Model;
use read_form::field;

// FROM, ACT and TO.
#[derive(Clone, Copy, Debug, PartialEq, Eq)]
pub struct Ends {
    pub from: u32,
    pub action: u32,
    pub to: u32,
}

// Row 3 of the first three fields: none, if one of them is no number in its range.
pub fn read_ends(value: &[u8]) -> Option<Ends>
    ensures { result ≡ ends_in value.now }
{
    let from = text_numbers::natural(field(value, 0), Model::LAST_LOCATION as u32)?;
    let action = text_numbers::natural(field(value, 1), Model::LAST_ACTION as u32)?;
    let to = text_numbers::natural(field(value, 2), Model::LAST_LOCATION as u32)?;
    Some(Ends { from, action, to })
}

// Row 12.
pub fn astray(counts: Counts, ends: Ends) -> bool
    ensures { result ≡ astray counts ends.from ends.action ends.to }
{
    let l = counts.locations;
    let a = counts.actions;
    (l <= arithmetic::index(ends.from))
        | ((a < arithmetic::index(ends.action)) | (l <= arithmetic::index(ends.to)))
}
