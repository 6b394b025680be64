// The words of all merged edges, from the list of their takers: sixteen places for each merged edge.
#![tactic(auto, using(crate::proofs::EdgesLaws::action_laws))]

ghost use Rattle.std.specs.Prelude.{◌≡◌};
ghost use Rattle.merge_append.specs.Append.{Filled};
ghost use Rattle.merge_edges.specs.Edges.{action_at, edge_of, edges_from};

use crate::edge::{self};
use merge_append::Filling;
use model::Model;

// The action of the first taker's edge; 0 if there is no taker.
fn action_of(t: &[u32], places: [usize; 16]) -> usize
    ensures { result ≡ action_at t.now places }
{
    for place in places {
        if place != 0 {
            return table_places::edge_action(t, place);
        }
    }
    0
}

// The merged edge of these takers, with pointers after so many variables.
fn edge(t: &[u32], variables: usize, places: [usize; 16], out: &mut Filling)
    ensures { Filled (edge_of t.now variables places) out.old out.new }
{
    let action = action_of(t, places);
    edge::edge(t, variables, action, places, out);
}

// The merged edges whose takers are the first `count` of the list, after so many variables.
pub fn all_edges(
    t: &[u32],
    variables: usize,
    list: &[u32; Model::WORDS],
    count: usize,
    out: &mut Filling,
)
    ensures { Filled (edges_from t.now variables list.now 0 count) out.old out.new }
{
    let mut place = 0;
    for _ in 0..count {
        let places = merge_takers::places_at(list, place);
        edge(t, variables, places, out);
        place = table_places::step(list, place, 16);
    }
}
