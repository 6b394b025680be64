// Reading words at any place.
#![tactic(auto, using(crate::proofs::ReadLaws::read_laws))]

ghost use Rattle.std.specs.Prelude.{◌≡◌, ◌<◌, get_or, take, drop};

// The word at a place as a count, 0 past the end.
pub(crate) fn count(ws: &[u32], at: usize) -> usize
    ensures { (result ≡ get_or ws.now at 0) × (result < 4294967296) }
{
    arithmetic::index(table_places::word32(ws, at))
}

// The words from a place on.
pub(crate) fn rest(ws: &[u32], at: usize) -> &[u32]
    ensures { result.now ≡ drop at ws.now }
{
    &ws[at.min(ws.len())..]
}

// The first words, at most n.
pub(crate) fn first(ws: &[u32], n: usize) -> &[u32]
    ensures { result.now ≡ take n ws.now }
{
    &ws[..n.min(ws.len())]
}
