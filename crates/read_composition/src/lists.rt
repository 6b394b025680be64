// Row 5 for the lists right after `syn`, also where the composition is ill-formed.
ghost use Rattle.std.specs.Prelude.{◌≡◌, false};
ghost use Rattle.format.specs.Tokens.{tokens};
ghost use Rattle.read_composition.specs.Lists.{list_kept, lists_kept};

use crate::list::list_of;
use crate::token::{says_syn, starts_number};

// `due`: the token before was `syn`.
#[tactic(auto, using(crate::proofs::ListsLaws::kept_laws))]
fn list_kept(token: &[u8], actions: u32, due: bool) -> bool
    ensures { result ≡ list_kept actions due token.now }
{
    if due & starts_number(token) {
        return list_of(token, actions).rising;
    }
    true
}

// It counts on row 3: a list whose numbers are not sound does not rise.
pub fn lists_sound(part: &[u8], actions: u32) -> bool
    ensures { result ≡ lists_kept actions false (tokens part.now) }
{
    let mut due = false;
    for token in part.split(|b| *b == b' ') {
        if !list_kept(token, actions, due) {
            return false;
        }
        due = says_syn(token);
    }
    true
}
