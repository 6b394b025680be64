// Rows 31 to 34: is there a merged sheet?
ghost use Rattle.std.specs.Prelude.{◌≡◌};
ghost use Rattle.merge_words.specs.Linearize.{is_crowded, fault_by};

use crate::gathering::Gathered;
use crate::survey::{self};
use model::{Model, Row};
use table_places::Layout;

// Row 31: has the merged sheet too many variables?
pub fn crowded(x: Layout) -> bool
    ensures { result ≡ is_crowded x }
{
    Model::VARIABLES < merge_append::pointer(x.variables, x.automata)
}

// The first of rows 32 to 34 that refuses.
pub fn fault(t: &[u32], g: Gathered, takers: &[u32; Model::WORDS]) -> Result<(), Row>
    ensures { result ≡ fault_by t.now g takers.now }
{
    if Model::EDGES < g.edges {
        return Err(Row(32));
    }
    let seen = survey::whole(t, g, takers);
    if seen.deep {
        return Err(Row(33));
    }
    if Model::NODES < seen.nodes {
        return Err(Row(34));
    }
    Ok(())
}
