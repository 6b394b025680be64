// A list of actions with commas: whether its numbers are sound (row 3) and rise (row 5), and its set as two words of
// bits.
ghost use Rattle.std.specs.Prelude.{◌≡◌, ◌%◌, ◌/◌};
ghost use Rattle.format.specs.Bytes.{parts, comma};
ghost use Rattle.format.specs.Rows.{list_items};
ghost use Rattle.read_composition.specs.List.{asked_of, words_of, list_of};

use model::Model;
use read_list::Asked;

// The set is that of a sound and rising list; otherwise it says nothing.
// Stays a struct with `sound`: `list_kept` and `set_kind` of specs/ read the other fields of an unsound list too.
#[derive(Clone, Copy, Debug, PartialEq, Eq)]
pub struct Listed {
    pub sound: bool,
    pub rising: bool,
    pub low: u32,
    pub high: u32,
}

// All numbers from 0 to 63.
const ALL: u64 = u64::MAX;

// What is asked of a list of actions, of which this is the highest.
#[tactic(auto, using(crate::proofs::ListLaws::asked_laws))]
fn asked(actions: u32) -> Asked
    ensures { result ≡ asked_of actions }
{
    Asked {
        most: Model::ACTIONS,
        least: 1,
        below: arithmetic::index(actions) + 1,
        all: ALL,
    }
}

fn low_word(set: u64) -> u32
    ensures { result ≡ set % 4294967296 }
{
    (set % 4294967296) as u32
}

fn high_word(set: u64) -> u32
    ensures { result ≡ set / 4294967296 }
{
    (set / 4294967296) as u32
}

// The set as two words. Row 5 is also about actions above the highest. An unsound list does not rise.
#[tactic(auto, using(crate::proofs::ListLaws::words_laws))]
fn in_words(list: Option<read_list::Listed>) -> Listed
    ensures { result ≡ words_of list }
{
    match list {
        Some(list) => {
            let set = ALL - list.rest;
            Listed {
                sound: true,
                rising: list.rising & !list.outside,
                low: low_word(set),
                high: high_word(set),
            }
        }
        None => Listed {
            sound: false,
            rising: false,
            low: low_word(ALL),
            high: high_word(ALL),
        },
    }
}

// A list that is not empty.
#[tactic(auto, using(crate::proofs::ListLaws::list_laws))]
pub(crate) fn list_of(part: &[u8], actions: u32) -> Listed
    ensures { result ≡ list_of actions (parts comma part.now) }
{
    in_words(read_list::filled(part, asked(actions)))
}

// The list of `sync=`, perhaps empty.
#[tactic(auto, using(crate::proofs::ListLaws::list_laws))]
pub fn sync_list(part: &[u8], actions: u32) -> Listed
    ensures { result ≡ list_of actions (list_items part.now) }
{
    in_words(read_list::read(part, asked(actions)))
}
