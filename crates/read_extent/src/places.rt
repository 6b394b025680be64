// Places in the bytes of a composition.
ghost use Rattle.std.specs.Prelude.{◌≡◌};
ghost use Rattle.read_extent.specs.Extent.{after_start, next_start};

use crate::calls;

// Where the tokens after a P begin, whose first token stands at `at`: a place past the end, if none is left. No P has
// more tokens than there are bytes.
pub fn after(part: &[u8], at: usize) -> usize
    ensures { result ≡ after_start part.now at }
{
    if part.len() < at {
        return at;
    }
    let mut next = at;
    let mut wanted = 1;
    let mut counts = false;
    for token in part[at..].split(|b| *b == b' ') {
        if wanted == 0 {
            return next;
        }
        if part.len() < wanted {
            return part.len() + 1;
        }
        wanted = wanted - 1 + calls::calls_for(token, counts);
        counts = calls::is_count(token);
        next += token.len() + 1;
    }
    next
}

// Where the P after the next `ini` from a place on begins, if there is one; no P is being read there.
pub fn next(part: &[u8], from: usize) -> Option<usize>
    ensures { result ≡ next_start part.now from }
{
    if part.len() < from {
        return None;
    }
    let mut at = from;
    for token in part[from..].split(|b| *b == b' ') {
        at += token.len() + 1;
        if text_bytes::same(token, b"ini") {
            return Some(at);
        }
    }
    None
}
