// What a token of a composition is.
ghost use Rattle.std.specs.Prelude.{◌≡◌};
ghost use Rattle.model.specs.Basic.{same};
ghost use Rattle.format.specs.Bytes.{bytes};
ghost use Rattle.read_composition.specs.Token.{starts_number, leaf_kind, word_kind, set_kind, kind_of};
ghost use Rattle.read_composition.specs.Token.{is_syn, is_ini, is_stray};

use crate::list::list_of;

// `Syn` is the word, and `Set` the list after it, as its set. `Ini` is the word without its P.
// Stays an enum with `Stray`: `walk` of specs/ goes over a list of kinds, and `stray_node` of the model is one of them.
#[derive(Clone, Copy, Debug, PartialEq, Eq)]
pub enum Kind {
    Par,
    Syn,
    Set(u32, u32),
    Ini,
    Leaf(u32),
    Stray,
}

// Does the token start with a digit or a minus?
#[tactic(auto, using(crate::proofs::TokenLaws::starts_laws))]
pub fn starts_number(token: &[u8]) -> bool
    ensures { result ≡ starts_number token.now }
{
    match token {
        [] => false,
        [b, ..] => text_bytes::starts_number(*b),
    }
}

// `aK`, of the automata 0 to 15.
#[tactic(auto, using(crate::proofs::TokenLaws::leaf_laws))]
fn leaf(token: &[u8]) -> Kind
    ensures { result ≡ leaf_kind token.now }
{
    let Some(rest) = token.strip_prefix(b"a") else {
        return Kind::Stray;
    };
    match text_numbers::natural(rest, 15) {
        Some(k) => Kind::Leaf(k),
        None => Kind::Stray,
    }
}

// The word `syn`.
pub fn says_syn(token: &[u8]) -> bool
    ensures { result ≡ same token.now (bytes "syn") }
{
    text_bytes::same(token, b"syn")
}

#[tactic(auto, using(crate::proofs::TokenLaws::word_laws))]
fn word(token: &[u8]) -> Kind
    ensures { result ≡ word_kind token.now }
{
    if says_syn(token) {
        return Kind::Syn;
    }
    if text_bytes::same(token, b"par") {
        return Kind::Par;
    }
    if text_bytes::same(token, b"ini") {
        return Kind::Ini;
    }
    leaf(token)
}

#[tactic(auto, using(crate::proofs::TokenLaws::set_laws))]
fn set(token: &[u8]) -> Kind
    ensures { result ≡ set_kind token.now }
{
    if !starts_number(token) {
        return Kind::Stray;
    }
    let l = list_of(token, model::Model::ACTIONS);
    Kind::Set(l.low, l.high)
}

// `due`: the token before was a `syn`, whose list this is to be.
#[tactic(auto, using(crate::proofs::TokenLaws::kind_laws))]
pub fn kind_of(token: &[u8], due: bool) -> Kind
    ensures { result ≡ kind_of due token.now }
{
    if due { set(token) } else { word(token) }
}

#[tactic(auto, using(crate::proofs::TokenLaws::is_laws))]
pub fn is_syn(k: Kind) -> bool
    ensures { result ≡ is_syn k }
{
    matches!(k, Kind::Syn)
}

#[tactic(auto, using(crate::proofs::TokenLaws::is_laws))]
pub fn is_ini(k: Kind) -> bool
    ensures { result ≡ is_ini k }
{
    matches!(k, Kind::Ini)
}

#[tactic(auto, using(crate::proofs::TokenLaws::is_laws))]
pub fn is_stray(k: Kind) -> bool
    ensures { result ≡ is_stray k }
{
    matches!(k, Kind::Stray)
}
