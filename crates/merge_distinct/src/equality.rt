// When the edges at two places are equal: when their words are.
#![tactic(auto, using(crate::proofs::EqualityLaws::equality_laws))]

ghost use Rattle.std.specs.Prelude.{◌≡◌, ◌<◌};
ghost use Rattle.merge_distinct.specs.Equality.{edge_length, same_run, same_edge_at, mixed, hash_at};

// How many words the edge at a place has: FROM, ACT, TO, the number of its update's nodes, and the nodes.
pub fn edge_length(t: &[u32], at: usize) -> usize
    ensures { result ≡ edge_length t.now at }
{
    merge_append::add(4, table_places::word(t, table_places::update_at(t, at)))
}

// Are so many words from one place on the same as from another?
fn same_words(t: &[u32], at: usize, other: usize, count: usize) -> bool
    ensures { result ≡ same_run t.now at other count }
{
    let mut a = at;
    let mut b = other;
    for _ in 0..count {
        if table_places::word(t, a) != table_places::word(t, b) {
            return false;
        }
        a = table_places::step(t, a, 1);
        b = table_places::step(t, b, 1);
    }
    true
}

pub fn same_edge(t: &[u32], at: usize, other: usize) -> bool
    ensures { result ≡ same_edge_at t.now at other }
{
    same_words(t, at, other, edge_length(t, at))
}

fn mixed(sum: usize, word: usize) -> usize
    ensures value { result ≡ mixed sum word }
    ensures upper_bound { result < 4096 }
{
    (sum % 4093 * 31 + word % 4294967296) % 4093
}

// A number below 4,096 of the edge at a place, which equal edges have in common.
pub fn hash(t: &[u32], at: usize) -> usize
    ensures value { result ≡ hash_at t.now at }
    ensures upper_bound { result < 4096 }
{
    let length = edge_length(t, at);
    let mut place = at;
    let mut sum = 0;
    for _ in 0..length {
        sum = mixed(sum, table_places::word(t, place));
        place = table_places::step(t, place, 1);
    }
    sum
}
