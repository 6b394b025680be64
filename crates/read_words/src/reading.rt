// The words that the tokens of P spell, as codes.
ghost use Rattle.std.specs.Prelude.{◌≡◌};
ghost use Rattle.read_words.specs.Read.{is_word, due_after, code_as, Reads};

use crate::codes::{self, Numbered};

// What the next token is read as: a word, or the K after `all` or `any`.
#[derive(Clone, Copy, Debug, PartialEq, Eq)]
pub enum Due {
    Word,
    AllCount,
    AnyCount,
}

// Stray: a token spells no word. Full: there is no room for the next.
#[derive(Clone, Copy, Debug, PartialEq, Eq)]
pub enum WordsError {
    Stray,
    Full,
}

#[tactic(auto, using(crate::proofs::ReadLaws::is_laws))]
fn is_word(due: Due) -> bool
    ensures { result ≡ is_word due }
{
    matches!(due, Due::Word)
}

// What the token after a first one is read as.
#[tactic(auto, using(crate::proofs::ReadLaws::first_laws))]
fn due_after_first(token: &[u8]) -> Due
    ensures { result ≡ due_after Due.Word token.now }
{
    if text_bytes::same(token, b"all") {
        return Due::AllCount;
    }
    if text_bytes::same(token, b"any") {
        return Due::AnyCount;
    }
    Due::Word
}

#[tactic(auto, using(crate::proofs::ReadLaws::after_laws))]
fn due_after(due: Due, token: &[u8]) -> Due
    ensures { result ≡ due_after due token.now }
{
    match due {
        Due::Word => due_after_first(token),
        Due::AllCount | Due::AnyCount => Due::Word,
    }
}

#[tactic(auto, using(crate::proofs::ReadLaws::as_laws))]
fn code_as(due: Due, token: &[u8]) -> u32
    ensures { result ≡ code_as due token.now }
{
    match due {
        Due::Word => codes::word_code(token),
        Due::AllCount => codes::count_code(Numbered::All, token),
        Due::AnyCount => codes::count_code(Numbered::Any, token),
    }
}

// The codes of the words, from the front of `out` on, up to the first token that spells none, and their number. Row 3
// is tested before: a number out of its range is read as no word.
#[tactic(auto, using(crate::proofs::ReadLaws::read_laws))]
pub fn read(part: &[u8], out: &mut [u32]) -> Result<usize, WordsError>
    ensures { Reads part.now out.old out.new result }
{
    let mut due = Due::Word;
    let mut n = 0;
    for token in part.split(|b| *b == b' ') {
        let read_as = due;
        due = due_after(read_as, token);
        if !is_word(due) {
            continue;
        }
        let code = code_as(read_as, token);
        if codes::is_stray(code) {
            return Err(WordsError::Stray);
        }
        if out.len() <= n {
            return Err(WordsError::Full);
        }
        out[n] = code;
        n += 1;
    }
    if is_word(due) {
        Ok(n)
    } else {
        Err(WordsError::Stray)
    }
}
