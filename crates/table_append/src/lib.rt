// Words at the end of a table that is being filled. What finds no room is left out.
#![tactic(auto)]

ghost use Rattle.std.specs.Prelude.{◌≡◌, [], ◌∷◌, length, take};
ghost use Rattle.table_append.specs.Append.{next_place, put};

use model::Model;

// One word.
#[tactic(auto, using(crate::proofs::AppendLaws::one_laws))]
pub fn append_one(words: &mut [u32; Model::WORDS], at: usize, word: u32) -> usize
    ensures { (result ≡ next_place at 1) × (words.new ≡ put at (word ∷ []) words.old) }
{
    if Model::WORDS <= at {
        return Model::WORDS;
    }
    words[at] = word;
    at + 1
}

// Two words.
#[tactic(auto, using(crate::proofs::Joined::two_laws))]
pub fn append_two(words: &mut [u32; Model::WORDS], at: usize, first: u32, second: u32) -> usize
    ensures { (result ≡ next_place at 2) × (words.new ≡ put at (first ∷ second ∷ []) words.old) }
{
    let next = append_one(words, at, first);
    append_one(words, next, second)
}

// The first n words of `from`, or all that it has. They go in one by one: a copy as a whole is compiled to a call of
// `memmove`, which the archive for C is not to need.
pub fn append(words: &mut [u32; Model::WORDS], at: usize, from: &[u32], n: usize) -> usize
    ensures { (result ≡ next_place at (length (take n from.now)))
        × (words.new ≡ put at (take n from.now) words.old) }
{
    if Model::WORDS <= at {
        return Model::WORDS;
    }
    let added = &from[..n.min(from.len())];
    let mut next = at;
    for word in added {
        next = append_one(words, next, *word);
    }
    next
}
