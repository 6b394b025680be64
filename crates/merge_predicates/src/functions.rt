// Definition 4's fs and gs: where the initial predicate, or the invariant, of each location stands. They are gathered
// once, and the merged predicates are made from what was gathered.
#![tactic(auto, using(crate::proofs::FunctionLaws::function_laws))]

ghost use Rattle.std.specs.Prelude.{◌≡◌, ◌+◌, ◌≤◌, get_or};
ghost use Rattle.std.proofs.lemmas.List.Edits.{sets};
ghost use Rattle.merge_predicates.specs.Functions.{part_at, domain_at, values_from, functions_of};

use model::Model;
use table_places::Layout;

// The most locations that all automata of a sheet can have.
const VALUES: usize = Model::AUTOMATA * Model::LOCATIONS;

// Of each automaton its function from locations to initial predicates (fs), or to invariants (gs): how many locations
// it has, and where the predicate of each stands, the automata's in a row; and how many locations all automata have.
#[derive(Clone, Copy, Debug, PartialEq, Eq)]
pub struct Functions {
    pub domains: [usize; Model::AUTOMATA],
    pub places: [usize; VALUES],
    pub total: usize,
}

// Of the location at a place, its init, or its inv. The flag stays: it is given at two calls, for fs and for gs, and
// read here alone, so an enum of its own would say no more than its name.
fn part(t: &[u32], inv: bool, at: usize) -> usize
    ensures { result ≡ part_at t.now inv at }
{
    if inv {
        table_places::after_predicate(t, at)
    } else {
        at
    }
}

// How many locations the automaton at a place has, as far as there can be so many.
fn domain(t: &[u32], at: usize) -> usize
    ensures value { result ≡ domain_at t.now at }
    ensures upper_bound { result ≤ 32 }
{
    table_places::at_most(Model::LOCATIONS, table_places::location_count(t, at))
}

// Where the predicates of `count` locations stand, of which the first is at `first`, is noted from index `at` on.
fn values(
    t: &[u32],
    inv: bool,
    count: usize,
    first: usize,
    places: &mut [usize; VALUES],
    at: usize,
) -> usize
    requires { at + count ≤ 512 }
    ensures value { result ≡ at + count }
    ensures places_after { places.new
        ≡ sets places.old at (values_from t.now inv count first) }
{
    let mut place = first;
    let end = at + count;
    for next in at..end {
        places[next] = part(t, inv, place);
        place = table_places::after_predicate(t, table_places::after_predicate(t, place));
    }
    end
}

// The functions of all automata, which stand where the layout says: fs, or gs if the invariants are asked for.
pub fn functions_of(t: &[u32], x: Layout, inv: bool) -> Functions
    ensures { result ≡ functions_of t.now x inv }
{
    let count = table_places::automata_of(x);
    let mut domains = [0usize; Model::AUTOMATA];
    let mut places = [0usize; VALUES];
    let mut total = 0;
    // `domains` keeps its index: of what a zip with its `iter_mut` writes the library says only the length.
    for (i, at) in x.sets[..count].iter().enumerate() {
        let locations = domain(t, *at);
        let first = table_places::first_location(t, *at);
        domains[i] = locations;
        total = values(t, inv, locations, first, &mut places, total);
    }
    Functions {
        domains,
        places,
        total,
    }
}

// Where value i stands; 0 past the array.
pub fn value(places: &[usize], i: usize) -> usize
    ensures { result ≡ get_or places.now i 0 }
{
    places.get(i).copied().unwrap_or(0)
}
