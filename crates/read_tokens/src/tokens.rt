// One token: which bytes of it, if any, are judged as a number?
ghost use Rattle.std.specs.Prelude.{◌≡◌};
ghost use Rattle.format.specs.Number as N;
ghost use Rattle.read_tokens.specs.Shape.{letter, shape_of};

// All of it, what follows its letter, or none.
// Stays an enum with `Plain`: the three are those of `Numeral`, and each `match` names them side by side.
#[derive(Clone, Copy, Debug, PartialEq, Eq)]
pub enum Shape {
    Bare,
    Lettered(u8),
    Plain,
}

#[tactic(auto, unfolding(crate::specs::Shape::letter))]
fn letter(b: u8) -> bool
    ensures { result ≡ letter b }
{
    (b == b'v') | ((b == b'n') | (b == b'a'))
}

#[tactic(auto, using(crate::proofs::ShapeLaws::shape_laws))]
pub fn numeral(token: &[u8]) -> Shape
    ensures { result ≡ shape_of token.now }
{
    match token {
        [b, ..] if text_bytes::starts_number(*b) => Shape::Bare,
        [b, c, ..] if letter(*b) & text_bytes::digit(*c) => Shape::Lettered(*b),
        _ => Shape::Plain,
    }
}

// A number from `low` to `high`.
#[tactic(auto, using(crate::proofs::ShapeLaws::number_is))]
pub fn number_fits(s: &[u8], low: i32, high: i32) -> bool
    ensures { result ≡ N.within low high s.now }
{
    text_numbers::integer(s, low, high).is_some()
}
