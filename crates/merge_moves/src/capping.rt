// Counts of moves. A merged sheet has at most 512 edges, so all counts above that are one: 513.
#![tactic(auto, using(crate::proofs::CappingLaws::capping_laws), unfolding(crate::specs::Capping::inside_of))]

ghost use Rattle.std.specs.Prelude.{◌≡◌, ◌/◌};
ghost use Rattle.model.specs.Moves.{sides_count};
ghost use Rattle.merge_moves.specs.Capping.{capped, cell_of, inside_of};

pub fn capped(x: u32) -> u32
    ensures { result ≡ capped x }
{
    x.min(513)
}

// How many moves a `par` has, from whether the action is in its sides' sets and their counts. Capped factors have a
// product that fits.
pub fn sides_count(b: bool, e: bool, left: u32, right: u32) -> u32
    ensures { result ≡ capped (sides_count b e (capped left) (capped right)) }
{
    let x = capped(left);
    let y = capped(right);
    match (b, e) {
        (true, true) => capped(x * y),
        (true, false) => capped(x),
        (false, true) => capped(y),
        (false, false) => capped(x + y),
    }
}

// What a plan keeps of a subtree, in one word: its count, and whether the action is in its set.
pub fn cell(inside: bool, count: u32) -> u32
    ensures { result ≡ cell_of inside count }
{
    capped(count) * 2 + u32::from(inside)
}

pub fn is_inside(cell: u32) -> bool
    ensures { result ≡ inside_of cell }
{
    cell % 2 == 1
}

pub fn count_of(cell: u32) -> u32
    ensures { result ≡ cell / 2 }
{
    cell / 2
}
