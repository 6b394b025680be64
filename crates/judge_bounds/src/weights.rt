// What a set of variables weighs, each by a weight of its own.
ghost use Rattle.std.specs.Prelude.{◌≡◌, ◌≤◌, ◌<◌, length};
ghost use Rattle.judge_bounds.specs.Bounds.{weight, Lowest};

// The first variable of a set.
#[tactic(auto, using(crate::proofs::WeightLaws::lowest_is))]
fn lowest(set: u64) -> usize
    requires { 0 < set }
    ensures { Lowest set result }
{
    set.trailing_zeros() as usize
}

// The weight of each variable of the set is added, and the variable taken off.
pub(crate) fn weigh(weights: &[u16; 64], set: u64) -> usize
    ensures value { result ≡ weight weights.now set }
    ensures upper_bound { result ≤ 8388480 }
{
    let mut total = 0;
    let mut rest = set;
    while rest != 0 {
        total += usize::from(weights[lowest(rest)]);
        rest &= rest - 1;
    }
    total
}
