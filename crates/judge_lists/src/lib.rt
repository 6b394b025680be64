// The lists of a run: their lengths, and the memory lent for the state at its end.
#![tactic(auto, using(crate::proofs::ListLaws::list_laws))]

ghost use Rattle.std.specs.Prelude.{◌≡◌, ◌*◌, length, take, eqb};
ghost use Rattle.table_places.specs.Layout.{automata_of, variables_of};
ghost use Rattle.judge_lists.specs.Lists.{lists_fit, end_fits, placed};

use judge_rows::{Phase, State};
use table_places::Layout;

// Is the total n times the count? A product that does not fit is no total.
fn times(total: usize, n: usize, count: usize) -> bool
    ensures { result ≡ eqb total (n * count) }
{
    n.checked_mul(count) == Some(total)
}

// So many locations and values are those of `count` proposals.
pub fn lengths_for(layout: &Layout, count: usize, locations: usize, values: usize) -> bool
    ensures { result ≡ lists_fit layout.now count locations values }
{
    times(locations, layout.automata, count) & times(values, layout.variables, count)
}

// So many places for locations and values have room for a state.
pub fn end_fits(layout: &Layout, locations: usize, values: usize) -> bool
    ensures { result ≡ end_fits layout.now locations values }
{
    (table_places::automata_of(*layout) <= locations)
        & (table_places::variables_of(*layout) <= values)
}

// Puts the items at the front of lent memory; nothing where they are too many.
fn put<T: Copy>(list: &[T], lent: &mut [T])
    ensures { lent.new ≡ placed list.now lent.old }
{
    if list.len() <= lent.len() {
        lent[..list.len()].copy_from_slice(list);
    }
}

// The locations and values of a state into the memory lent for them, where there is room; and its phase.
pub fn keep(layout: &Layout, s: State, end_locations: &mut [u32], end_values: &mut [i32]) -> Phase
    ensures value { result ≡ s.phase }
    ensures end_locations_after { end_locations.new ≡ placed (take (automata_of layout.now) s.locations)
        end_locations.old }
    ensures end_values_after { end_values.new ≡ placed (take (variables_of layout.now) s.values)
        end_values.old }
{
    let n = table_places::automata_of(*layout);
    let v = table_places::variables_of(*layout);
    put(&s.locations[..n], end_locations);
    put(&s.values[..v], end_values);
    s.phase
}
