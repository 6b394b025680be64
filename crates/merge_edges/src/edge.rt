// One merged edge, from where the edges stand that it has; 0 stands for an automaton that takes none.
#![tactic(auto, using(crate::proofs::EdgeLaws::edge_laws))]

ghost use Rattle.std.specs.Prelude.{◌≡◌, [], ◌∷◌};
ghost use Rattle.merge_append.specs.Append.{Filled};
ghost use Rattle.merge_append.specs.NodeWords.{number_node, eq_node};
ghost use Rattle.merge_edges.specs.Edge.{update_at, move_at, updates_at, moves_at, taker_nodes, takers_nodes};
ghost use Rattle.merge_edges.specs.Edge.{taker_operands, takers_operands, edge_by, update_deep, updates_deep};

use merge_append::Filling;
use model::Model;

// A taker's update.
fn update(t: &[u32], place: usize, out: &mut Filling)
    ensures { Filled (update_at t.now place) out.old out.new }
{
    if place == 0 {
        return;
    }
    out.nodes(t, table_places::update_at(t, place));
}

// `eq` of an old or a new pointer and a location.
#[tactic(auto, using(crate::proofs::EdgeLaws::equal_is))]
fn equal(pointer: usize, location: usize, out: &mut Filling)
    ensures { Filled (eq_node ∷ pointer ∷ number_node location ∷ []) out.old out.new }
{
    let words = [
        merge_append::eq_node(),
        pointer,
        merge_append::number_node(location),
    ];
    out.put_all(&words);
}

// A taker's pointer was FROM and becomes TO.
fn pointer_move(t: &[u32], k: usize, place: usize, out: &mut Filling)
    ensures { Filled (move_at t.now k place) out.old out.new }
{
    if place == 0 {
        return;
    }
    let from = table_places::edge_from(t, place);
    let to = table_places::edge_to(t, place);
    equal(merge_append::old_node(k), from, out);
    equal(merge_append::new_node(k), to, out);
}

// The updates of all takers.
fn updates(t: &[u32], places: [usize; 16], out: &mut Filling)
    ensures { Filled (updates_at t.now places) out.old out.new }
{
    for place in places {
        update(t, place, out);
    }
}

// The pointers of all takers, after so many variables.
fn pointer_moves(t: &[u32], variables: usize, places: [usize; 16], out: &mut Filling)
    ensures { Filled (moves_at t.now variables 0 places) out.old out.new }
{
    for (i, place) in places.iter().enumerate() {
        let pointer = merge_append::pointer(variables, i);
        pointer_move(t, pointer, *place, out);
    }
}

// The nodes of a taker, its update's and six, added to a sum.
fn taker_nodes(t: &[u32], sum: usize, place: usize) -> usize
    ensures { result ≡ taker_nodes t.now sum place }
{
    if place == 0 {
        return sum;
    }
    let nodes = table_places::word(t, table_places::update_at(t, place));
    merge_append::add(merge_append::add(sum, 6), nodes)
}

// The nodes of a merged edge's update.
pub fn takers_nodes(t: &[u32], places: [usize; 16]) -> usize
    ensures { result ≡ takers_nodes t.now 1 places }
{
    places
        .iter()
        .fold(1, |sum, place| taker_nodes(t, sum, *place))
}

// Three operands for a taker, added to a sum.
fn taker_operands(sum: usize, place: usize) -> usize
    ensures { result ≡ taker_operands sum place }
{
    if place == 0 {
        return sum;
    }
    merge_append::add(sum, 3)
}

// The operands of a merged edge's `all`.
fn takers_operands(places: [usize; 16]) -> usize
    ensures { result ≡ takers_operands 0 places }
{
    places
        .iter()
        .fold(0, |sum, place| taker_operands(sum, *place))
}

// The merged edge of these takers, with pointers after so many variables.
pub fn edge(t: &[u32], variables: usize, action: usize, places: [usize; 16], out: &mut Filling)
    ensures { Filled (edge_by t.now variables action places) out.old out.new }
{
    let nodes = takers_nodes(t, places);
    let operands = takers_operands(places);
    let head = [0, action, 0, nodes, merge_append::all_node(operands)];
    out.put_all(&head);
    updates(t, places, out);
    pointer_moves(t, variables, places, out);
}

// Is a taker's update so deep that the merged edge's, one deeper, is too deep?
fn update_deep(t: &[u32], place: usize) -> bool
    ensures { result ≡ update_deep t.now place }
{
    if place == 0 {
        return false;
    }
    let update = table_places::update_at(t, place);
    merge_predicates::is_deeper(t, Model::DEPTH - 1, update)
}

// Is the merged edge's update too deep?
pub fn updates_deep(t: &[u32], places: [usize; 16]) -> bool
    ensures { result ≡ updates_deep t.now places }
{
    places.iter().any(|place| update_deep(t, *place))
}
