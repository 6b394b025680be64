// Where the groups stand: group k has the places from `starts[k]` up to `ends[k]`. Past the end of a slice stands 0.
ghost use Rattle.std.specs.Prelude.{◌≡◌, true, List, ℕ, ◌≤◌, length, get_or};
ghost use Rattle.judge_cover.specs.Cover.{past, groups, groups_of, all_filled};
ghost use Rattle.judge_cover.specs.Steps.{Without, InRow, Laid, Spans, Last};

// Stays two functions: each is a call of the library, and `place(starts, k)` is plainer than `at(starts, k, 0)`.
pub fn mask_at(masks: &[u64], i: usize) -> u64
    ensures { result ≡ get_or masks.now i 0 }
{
    masks.get(i).copied().unwrap_or(0)
}

pub fn place(places: &[usize], k: usize) -> usize
    ensures { result ≡ get_or places.now k 0 }
{
    places.get(k).copied().unwrap_or(0)
}

// Item i of a list without item k is item `past(k, i)` of the list.
#[tactic(auto, using(crate::proofs::CodeLaws::step_laws))]
fn past(k: usize, i: usize) -> usize
    requires { i ≤ 16 }
    ensures { result ≡ past k i }
{
    if i < k { i } else { i + 1 }
}

// Not inlined, so that the frames of the search stay small.
#[inline(never)]
pub(crate) fn without(list: &[usize], k: usize) -> [usize; 16]
    ensures without { Without k list.now result }
    ensures result_len { length result ≡ 16 }
{
    let mut rest = [0usize; 16];
    for i in 0..16 {
        rest[i] = place(list, past(k, i));
    }
    rest
}

// Every group has an edge.
#[tactic(auto, using(crate::proofs::CodeLaws::filled_laws))]
pub(crate) fn all_filled(starts: &[usize], ends: &[usize], n: usize) -> bool
    ensures { result ≡ all_filled starts.now ends.now n }
{
    for k in 0..n {
        if place(ends, k) <= place(starts, k) {
            return false;
        }
    }
    true
}

// Does every group end where the next one begins, or before, and within the first 512 places of a list of this length?
pub(crate) fn laid(length: usize, starts: &[usize], ends: &[usize], n: usize) -> bool
    requires { n ≤ 16 }
    ensures { result ≡ true → InRow starts.now ends.now n length }
{
    let mut least = 0;
    for k in 0..n {
        if place(starts, k) < least {
            return false;
        }
        let end = place(ends, k);
        if length.min(512) < end {
            return false;
        }
        least = end;
    }
    true
}

// The end of the last group; 0 if there is none.
pub(crate) fn last(ends: &[usize], n: usize) -> usize
    ensures { Last ends.now n result }
{
    if n == 0 {
        return 0;
    }
    place(ends, n - 1)
}

// Would all edges of the groups have room in a list of length 128?
#[tactic(auto, using(crate::proofs::PlaceLaws::short_is))]
pub(crate) fn short(starts: &[usize], ends: &[usize], n: usize) -> bool
    requires n_bound { n ≤ 16 }
    requires laid { Laid starts.now ends.now n 512 }
    ensures { result ≡ true → Spans starts.now ends.now n 128 }
{
    last(ends, n).saturating_sub(128) <= place(starts, 0)
}

// The places of the takers' groups, one after the other, and how many there are.
#[tactic(auto, using(crate::proofs::GroupLaws::gathering_laws))]
pub(crate) fn groups(
    first: &[usize],
    takers: u64,
    starts: &mut [usize; 16],
    ends: &mut [usize; 16],
) -> usize
    requires { (length starts.old ≡ 16) × (length ends.old ≡ 16) }
    ensures upper_bound { result ≤ 16 }
    ensures starts_len { (length starts.new ≡ 16) × (length ends.new ≡ 16) }
    ensures by_index { (masks : List ℕ) → groups masks starts.new ends.new result
        ≡ groups_of masks first.now takers }
{
    let mut n = 0;
    for k in 0..16 {
        starts[n] = place(first, k);
        ends[n] = place(first, k + 1);
        n += usize::from(table_tree::in_word(takers, k as u32));
    }
    n
}
