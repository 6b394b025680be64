// How many more tokens a token of P calls for.
ghost use Rattle.std.specs.Prelude.{◌≡◌, ◌≤◌, drop};
ghost use Rattle.format.specs.Tokens.{find, calls};
ghost use Rattle.read_extent.specs.Extent.{is_count, count_calls, calls_in};

use model::Model;

// Does the K of an `all` or `any` come next?
#[tactic(auto, using(crate::proofs::CallsLaws::count_is))]
pub fn is_count(token: &[u8]) -> bool
    ensures { result ≡ is_count token.now }
{
    text_bytes::same(token, b"all") | text_bytes::same(token, b"any")
}

// The words of P stay in three functions of few tests each. One `match` on byte strings was tried, and its proof did
// not close: `returns-in_default` is a goal for each byte that may differ, 19 in all.

// The words of expressions.
#[tactic(auto, using(crate::proofs::CallsLaws::calls_laws))]
fn operator_calls(token: &[u8]) -> usize
    ensures { result ≡ find 0 (drop 6 calls) token.now }
{
    if text_bytes::same(b"add", token) {
        return 2;
    }
    if text_bytes::same(b"sub", token) {
        return 2;
    }
    if text_bytes::same(b"mul", token) {
        return 2;
    }
    if text_bytes::same(b"if", token) {
        return 3;
    }
    0
}

// The words of predicates with two operands, and those of expressions.
#[tactic(auto, using(crate::proofs::CallsLaws::calls_laws))]
fn pair_calls(token: &[u8]) -> usize
    ensures { result ≡ find 0 (drop 3 calls) token.now }
{
    if text_bytes::same(b"imp", token) {
        return 2;
    }
    if text_bytes::same(b"eq", token) {
        return 2;
    }
    if text_bytes::same(b"le", token) {
        return 2;
    }
    operator_calls(token)
}

#[tactic(auto, using(crate::proofs::CallsLaws::calls_laws))]
fn word_calls(token: &[u8]) -> usize
    ensures { result ≡ find 0 calls token.now }
{
    if text_bytes::same(b"all", token) {
        return 1;
    }
    if text_bytes::same(b"any", token) {
        return 1;
    }
    if text_bytes::same(b"not", token) {
        return 1;
    }
    pair_calls(token)
}

// The K after `all` or `any`; what is none calls for nothing.
#[tactic(auto, using(crate::proofs::CallsLaws::count_laws))]
fn count_calls(token: &[u8]) -> usize
    ensures { result ≡ count_calls token.now }
{
    match text_numbers::natural(token, Model::OPERANDS) {
        Some(k) => arithmetic::index(k),
        None => 0,
    }
}

// A token, which is the K of an `all` or `any`, or is not.
#[tactic(auto, using(crate::proofs::CallsLaws::for_laws))]
pub fn calls_for(token: &[u8], counts: bool) -> usize
    ensures value { result ≡ calls_in counts token.now }
    ensures upper_bound { result ≤ 512 }
{
    if counts {
        count_calls(token)
    } else {
        word_calls(token)
    }
}
