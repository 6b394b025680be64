// Row 3 over the tokens of P or C: each number spelled right and in its range.
ghost use Rattle.std.specs.Prelude.{◌≡◌, [], pos};
ghost use Rattle.model.specs.Basic.{every};
ghost use Rattle.model.specs.Bounds.{max_actions};
ghost use Rattle.format.specs.Bytes.{parts, comma};
ghost use Rattle.format.specs.Number.{within};
ghost use Rattle.format.specs.Tokens as T;
ghost use Rattle.read_tokens.specs.Numbers.{before_of, judged, sound_after};

use crate::tokens::{self, Shape};
use model::Model;

// How the token before makes a number be judged: as an operand count, as a list of actions, or by the number's own
// letter.
#[derive(Clone, Copy, Debug, PartialEq, Eq)]
pub enum Before {
    Count,
    Items,
    Other,
}

#[tactic(auto, using(crate::proofs::NumbersLaws::kind_laws))]
fn kind_of(token: &[u8]) -> Before
    ensures { result ≡ before_of token.now }
{
    if text_bytes::same(token, b"all") {
        return Before::Count;
    }
    if text_bytes::same(token, b"any") {
        return Before::Count;
    }
    if text_bytes::same(token, b"syn") {
        return Before::Items;
    }
    Before::Other
}

// Each item between commas is an action's number.
pub fn list_sound(part: &[u8]) -> bool
    ensures { result ≡ every (within (pos 0) (pos max_actions)) (parts comma part.now) }
{
    part.split(|b| *b == b',')
        .all(|item| tokens::number_fits(item, 0, Model::ACTIONS as i32))
}

#[tactic(auto, using(crate::proofs::NumbersLaws::last_laws))]
fn last_after(letter: u8) -> i32
    ensures { result ≡ T.last_after letter }
{
    if letter == b'a' {
        15
    } else {
        Model::LAST_VARIABLE as i32
    }
}

// A number as its kind asks: an operand count, a list of actions, or from `low` to `high`.
#[tactic(auto, using(crate::proofs::NumbersLaws::judged_laws))]
fn judged(before: Before, s: &[u8], low: i32, high: i32) -> bool
    ensures { result ≡ judged before s.now low high }
{
    match before {
        Before::Count => tokens::number_fits(s, 0, Model::OPERANDS as i32),
        Before::Items => list_sound(s),
        Before::Other => tokens::number_fits(s, low, high),
    }
}

// The number is the whole token, or follows a letter.
#[tactic(auto, using(crate::proofs::NumbersLaws::sound_laws))]
fn sound(before: Before, token: &[u8]) -> bool
    ensures { result ≡ sound_after before token.now }
{
    match tokens::numeral(token) {
        Shape::Bare => judged(before, token, Model::LEAST_NUMBER, Model::GREATEST_NUMBER),
        Shape::Lettered(b) => judged(before, &token[1..], 0, last_after(b)),
        Shape::Plain => true,
    }
}

// Row 3: is each number of the tokens spelled right and in its range? Of the token before only its kind is kept.
pub fn numbers_sound(part: &[u8]) -> bool
    ensures { result ≡ T.sounds [] (T.tokens part.now) }
{
    let mut kind = Before::Other;
    for token in part.split(|b| *b == b' ') {
        if !sound(kind, token) {
            return false;
        }
        kind = kind_of(token);
    }
    true
}
