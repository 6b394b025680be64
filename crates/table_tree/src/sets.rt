// Sets of actions: bit K of a word is set where action K is in the set.
ghost use Rattle.std.specs.Prelude.{◌≡◌};
ghost use Rattle.model.specs.Basic.{member};
ghost use Rattle.model.specs.Limits.{rises};
ghost use Rattle.model.specs.Table.{bit, set_of};
ghost use Rattle.table_tree.specs.Sets.{one_word, single, unfilled};

// Two words of a set as one.
#[tactic(auto, unfolding(crate::specs::Sets::one_word))]
pub fn set_of(low: u32, high: u32) -> u64
    ensures { result ≡ one_word low high }
{
    (u64::from(high) << 32) + u64::from(low)
}

// The set that holds k alone; the empty one where no word has such a bit.
#[tactic(auto, using(crate::proofs::SetLaws::single_laws))]
pub fn single(k: u32) -> u64
    ensures { result ≡ single k }
{
    if 64 <= k {
        return 0;
    }
    1u64 << k
}

// No word has a bit above 63.
#[tactic(auto, using(crate::proofs::SetLaws::word_laws))]
pub fn in_word(set: u64, action: u32) -> bool
    ensures { result ≡ bit set action }
{
    action < 64 && (set >> action) % 2 == 1
}

// Is the action in the set of two words?
#[tactic(auto, using(crate::proofs::SetLaws::words_member))]
pub fn in_words(low: u32, high: u32, action: u32) -> bool
    ensures { result ≡ member action (set_of low high) }
{
    in_word(set_of(low, high), action)
}

// The set holds no 0, and nothing above the highest action.
#[tactic(auto, using(crate::proofs::SetLaws::sound_laws))]
pub fn set_sound(low: u32, high: u32, actions: u32) -> bool
    ensures { result ≡ rises actions 0 (set_of low high) }
{
    let set = set_of(low, high);
    set % 2 == 0 && (63 <= actions || set >> (actions + 1) == 0)
}

// How many `ini` a node over a tree is: one where its set is empty.
#[tactic(auto, using(crate::proofs::SetLaws::unfilled_laws))]
pub fn unfilled(low: u32, high: u32) -> usize
    ensures { result ≡ unfilled (set_of low high) }
{
    usize::from(set_of(low, high) == 0)
}
