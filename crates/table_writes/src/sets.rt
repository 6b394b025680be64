// Sets of variables: bit K of a word is set where K is in the set.
ghost use Rattle.std.specs.Prelude.{◌≡◌, take, drop};
ghost use Rattle.table_writes.specs.Sets.{clear, all_variables, left_out, rest_of, written_set};

use node_words::Node;

// All 48 variables.
const ALL: u64 = 281474976710655;

pub fn all() -> u64
    ensures { result ≡ all_variables }
{
    ALL
}

// A set without variable k.
#[tactic(auto, using(crate::proofs::CodeLaws::clear_laws, table_tree::proofs::SetLaws::single_below))]
pub fn clear(set: u64, k: u32) -> u64
    ensures { result ≡ clear set k }
{
    if table_tree::in_word(set, k) {
        return set - table_tree::single(k);
    }
    set
}

// `nK` names variable K's new value.
#[tactic(auto, using(crate::proofs::CodeLaws::out_laws))]
fn left_out(set: u64, word: u32) -> u64
    ensures { result ≡ left_out set word }
{
    match node_words::node_of(word) {
        Node::New(k) => clear(set, k),
        _ => set,
    }
}

// What is left of all variables without those whose new values the words name.
#[tactic(auto, unfolding(crate::specs::Sets::rest_of))]
fn unnamed(words: &[u32]) -> u64
    ensures { result ≡ rest_of all_variables words.now }
{
    words.iter().fold(ALL, |set, word| left_out(set, *word))
}

// The variables whose new values the `count` node words from `at` on do not name.
pub fn unwritten(words: &[u32], at: usize, count: usize) -> u64
    ensures { result ≡ rest_of all_variables (take count (drop at words.now)) }
{
    unnamed(node_words::part(words, at, count))
}

// The variables whose new values they do name.
#[tactic(auto, using(crate::proofs::CodeLaws::rest_within, crate::proofs::CodeLaws::written_is))]
pub fn written(words: &[u32], at: usize, count: usize) -> u64
    ensures { result ≡ written_set (take count (drop at words.now)) }
{
    ALL - unwritten(words, at, count)
}
