// The parts of a sheet by name: what stands at a place, and where a part's own parts stand. Each part keeps a function:
// with one over the distance its callers would say the distances, which are said here alone.
#![tactic(auto, using(crate::proofs::CodeLaws::part_laws))]

ghost use Rattle.std.specs.Prelude.{◌≡◌};
ghost use Rattle.table_places.specs.Outline.{actions_in, variables_in, automata_in, first_automaton, range_at, low_at};
ghost use Rattle.table_places.specs.Outline.{high_at, owner_at, set_low, set_high, location_count, first_location};
ghost use Rattle.table_places.specs.Outline.{first_edge, edge_from, edge_action, edge_to, update_place, nodes_place};

// A.
pub fn actions(t: &[u32]) -> usize
    ensures { result ≡ actions_in t.now }
{
    crate::word(t, 1)
}

// V.
pub fn variables(t: &[u32]) -> usize
    ensures { result ≡ variables_in t.now }
{
    crate::word(t, 2)
}

// N.
pub fn automata(t: &[u32]) -> usize
    ensures { result ≡ automata_in t.now }
{
    crate::word(t, crate::count_at(t))
}

// Where automaton 0 stands: after N.
pub fn first_automaton(t: &[u32]) -> usize
    ensures { result ≡ first_automaton t.now }
{
    crate::step(t, crate::count_at(t), 1)
}

// Where variable k stands, its range first: three words for each variable before it.
pub fn range_at(t: &[u32], k: usize) -> usize
    ensures { result ≡ range_at t.now k }
{
    let a = crate::step(t, crate::step(t, 0, 3), k);
    crate::step(t, crate::step(t, a, k), k)
}

// LO and HI of the range at a place, biased.
pub fn low(t: &[u32], at: usize) -> u32
    ensures { result ≡ low_at t.now at }
{
    crate::word32(t, at)
}

pub fn high(t: &[u32], at: usize) -> u32
    ensures { result ≡ high_at t.now at }
{
    crate::word32(t, crate::step(t, at, 1))
}

// The owner of the variable at a place: 0 for nobody, K + 1 for automaton K.
pub fn owner(t: &[u32], at: usize) -> u32
    ensures { result ≡ owner_at t.now at }
{
    crate::word32(t, crate::step(t, at, 2))
}

// The two words of the set of the automaton at a place.
pub fn set_low(t: &[u32], at: usize) -> u32
    ensures { result ≡ set_low t.now at }
{
    crate::word32(t, at)
}

pub fn set_high(t: &[u32], at: usize) -> u32
    ensures { result ≡ set_high t.now at }
{
    crate::word32(t, crate::step(t, at, 1))
}

// How many locations the automaton at a place has, and where the first stands.
pub fn location_count(t: &[u32], at: usize) -> usize
    ensures { result ≡ location_count t.now at }
{
    crate::word(t, crate::step(t, at, 2))
}

pub fn first_location(t: &[u32], at: usize) -> usize
    ensures { result ≡ first_location t.now at }
{
    crate::step(t, at, 3)
}

// Where the first edge stands, `edges` being where their number does.
pub fn first_edge(t: &[u32], edges: usize) -> usize
    ensures { result ≡ first_edge t.now edges }
{
    crate::step(t, edges, 1)
}

// FROM, ACT and TO of the edge at a place.
pub fn edge_from(t: &[u32], at: usize) -> usize
    ensures { result ≡ edge_from t.now at }
{
    crate::word(t, at)
}

pub fn edge_action(t: &[u32], at: usize) -> usize
    ensures { result ≡ edge_action t.now at }
{
    crate::word(t, crate::step(t, at, 1))
}

pub fn edge_to(t: &[u32], at: usize) -> usize
    ensures { result ≡ edge_to t.now at }
{
    crate::word(t, crate::step(t, at, 2))
}

// Where the update of the edge at a place stands, its number of nodes first.
pub fn update_at(t: &[u32], at: usize) -> usize
    ensures { result ≡ update_place t.now at }
{
    crate::step(t, at, 3)
}

// Where the nodes of the predicate, or of the tree, at a place stand: after their number.
pub fn nodes_at(t: &[u32], at: usize) -> usize
    ensures { result ≡ nodes_place t.now at }
{
    crate::step(t, at, 1)
}
