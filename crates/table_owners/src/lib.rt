// Who owns the variables, from the words of variables: three words each, of which the last is 0 for nobody and K + 1
// for automaton K. Rows 50 and 51.
#![tactic(auto)]

ghost use Rattle.std.specs.Prelude.{◌≡◌};
ghost use Rattle.table_owners.specs.Owners.{owner_in, is_beyond_at, beyond_in, is_foreign_at, foreign_in};

use model::Model;

// The owner's word of variable k; 0 where there is no such variable.
#[tactic(auto, using(crate::proofs::CodeLaws::owner_laws))]
fn owner(variables: &[u32], k: usize) -> usize
    ensures { result ≡ owner_in variables.now k }
{
    if variables.len() / 3 <= k {
        return 0;
    }
    arithmetic::index(variables[3 * k + 2])
}

// Variable k has an owner that is not among the first n automata.
#[tactic(auto, using(crate::proofs::CodeLaws::beyond_at))]
fn beyond_at(variables: &[u32], n: usize, k: usize) -> bool
    ensures { result ≡ is_beyond_at variables.now n k }
{
    n < owner(variables, k)
}

// Row 50: some variable has.
pub fn beyond(variables: &[u32], n: usize) -> bool
    ensures { result ≡ beyond_in variables.now n }
{
    for k in 0..variables.len() / 3 {
        if beyond_at(variables, n, k) {
            return true;
        }
    }
    false
}

// Variable k is not in the set `rest`, and not owned by the last of n automata.
#[tactic(auto, using(crate::proofs::CodeLaws::foreign_at))]
fn foreign_at(variables: &[u32], n: usize, rest: u64, k: u32) -> bool
    ensures { result ≡ is_foreign_at variables.now n rest k }
{
    let word = owner(variables, arithmetic::index(k));
    !table_tree::in_word(rest, k) & !((word != 0) & (word == n))
}

// Row 51, where an edge of the last of n automata writes all variables but the set `rest`: it does not own all that it
// writes.
pub fn foreign(variables: &[u32], n: usize, rest: u64) -> bool
    ensures { result ≡ foreign_in variables.now n rest }
{
    for k in 0..Model::VARIABLES as u32 {
        if foreign_at(variables, n, rest, k) {
            return true;
        }
    }
    false
}
