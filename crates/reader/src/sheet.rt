// The loop over a text's lines.
ghost use Rattle.std.specs.Prelude.{◌≡◌, ◌+◌, ◌≤◌, ◌<◌, ltb, length};
ghost use Rattle.model.specs.Bounds.{max_bytes};
ghost use Rattle.format.specs.Bytes.{LF};
ghost use Rattle.text_bytes.specs.Find.{first_from};
ghost use Rattle.reader.specs.Read.{place_first, place_after, place_behind, line_round, line_round_after, last_set};
ghost use Rattle.reader.specs.Read.{owner_round, owner_round_after, writes_others, list_round, round_at, round_after};
ghost use Rattle.reader.specs.Read.{sheet_read, refusal, stop_at, line_at, stands_behind};
ghost use Rattle.reader.specs.Read.{due_round, due_round_after};

use crate::{Behind, Place, Refusal};
use line_order::{Counts, Due};
use model::{Model, Row};
use read_form::Line;

// After a round: where to read on, or nothing where all was read; or why the text is refused.
type Round = Result<Option<Place>, Refusal>;

fn refused(row: u32, line: usize) -> Round
    ensures { result ≡ Err (refusal row line) }
{
    Err(Refusal {
        row: Row(row),
        line,
    })
}

impl Behind {
    // What stands behind the line that is due, of which this number is told.
    #[tactic(auto, using(crate::proofs::SheetLaws::behind_laws))]
    fn of(due: Due, number: usize) -> Option<Behind>
        ensures { result ≡ stands_behind due number }
    {
        if due.owned() {
            return Some(Behind::Owner);
        }
        if due.listed() {
            return Some(Behind::Writes(number));
        }
        None
    }
}

impl Place {
    #[tactic(auto, using(crate::proofs::SheetLaws::place_laws))]
    fn first() -> Place
        ensures { result ≡ place_first }
    {
        Place {
            due: Due::first(),
            counts: Counts::none(),
            at: 0,
            byte: 0,
            behind: None,
        }
    }

    // After a line with this number and so many nodes, which ended before byte `stop`.
    #[tactic(auto, using(crate::proofs::SheetLaws::place_laws))]
    fn after(self, number: usize, nodes: usize, next: usize, stop: usize) -> Place
        requires { stop ≤ max_bytes }
        ensures { result ≡ place_after self number nodes next stop }
    {
        let due = self.due;
        let counts = self.counts;
        let key = due.key;
        Place {
            due: due.after(number),
            counts: counts.after(key, number, nodes),
            at: next,
            byte: stop + 1,
            behind: Behind::of(due, number),
        }
    }

    // After the owner or the list behind a line, which ended before byte `stop`.
    #[tactic(auto, using(crate::proofs::SheetLaws::place_laws))]
    fn after_behind(self, stop: usize) -> Place
        requires { stop ≤ max_bytes }
        ensures { result ≡ place_behind self stop }
    {
        Place {
            byte: stop + 1,
            behind: None,
            ..self
        }
    }
}

// Where the line that begins at `byte` ends: at its LF, or at the end of the text.
#[tactic(auto, using(crate::proofs::SheetLaws::stop_after))]
fn stop_from(text: &[u8], byte: usize) -> usize
    requires { byte < length text.now }
    ensures { (result ≡ first_from text.now byte LF) × (byte ≤ result) × (result ≤ length text.now) }
{
    text_bytes::find(text, byte, b'\n')
}

// The line at a place, and where it ends.
#[tactic(auto, using(crate::proofs::SheetLaws::at_laws))]
fn line_at(text: &[u8], place: Place) -> (Line<'_>, usize)
    requires { place.byte < length text.now }
    ensures line { (result.0.bytes.now ≡ line_at text.now place)
        × (result.0.ended ≡ ltb (stop_at text.now place) (length text.now)) }
    ensures stop { (result.1 ≡ stop_at text.now place) × (result.1 ≤ length text.now) }
{
    let byte = place.byte;
    let stop = stop_from(text, byte);
    let line = Line {
        bytes: &text[byte..stop],
        ended: stop < text.len(),
    };
    (line, stop)
}

// The line at a place, which has this number.
fn line(text: &[u8], number: usize, place: Place, words: &mut [u32; Model::WORDS]) -> Round
    requires { (place.byte < length text.now) × (length text.now ≤ max_bytes) }
    ensures { (result ≡ line_round text.now number place words.old)
        × (words.new ≡ line_round_after text.now place words.old) }
{
    let at = place.at;
    let due = place.due;
    let counts = place.counts;
    let key = due.key;
    let (here, stop) = line_at(text, place);
    match read_line::read(here, key, counts, words, at) {
        Ok(line) => Ok(Some(place.after(line.number, line.nodes, line.next, stop))),
        Err(row) => Err(Refusal { row, line: number }),
    }
}

// A word in the place of the last one before `at`.
#[tactic(auto, using(crate::proofs::SheetLaws::set_laws))]
fn set_last(words: &mut [u32; Model::WORDS], at: usize, word: u32)
    ensures { words.new ≡ last_set at word words.old }
{
    if at == 0 {
        return;
    }
    if Model::WORDS < at {
        return;
    }
    words[at - 1] = word;
}

// The owner behind a variable's line, at a place, on the line with this number. That line put the word of no owner
// last; the owner's takes its place.
fn owner(text: &[u8], number: usize, place: Place, words: &mut [u32; Model::WORDS]) -> Round
    requires { (place.byte < length text.now) × (length text.now ≤ max_bytes) }
    ensures { (result ≡ owner_round text.now number place)
        × (words.new ≡ owner_round_after text.now place words.old) }
{
    let at = place.at;
    let (here, stop) = line_at(text, place);
    match read_owner_line::read(here) {
        Ok(word) => {
            set_last(words, at, word);
            Ok(Some(place.after_behind(stop)))
        }
        Err(row) => Err(Refusal { row, line: number }),
    }
}

// Row 51 of the edge before a place: from the format with owners on, it writes what its automaton does not own.
#[tactic(auto, using(crate::proofs::SheetLaws::others_laws))]
fn writes_others(place: Place, rest: usize, words: &[u32; Model::WORDS]) -> bool
    ensures { result ≡ writes_others place rest words.now }
{
    let counts = place.counts;
    let format = counts.format;
    let variables = counts.variables;
    let automata = counts.automata;
    if format < Model::OWNERS_FORMAT {
        return false;
    }
    table_owners::foreign(table_line::ranges(words, variables), automata, rest as u64)
}

// The list behind an edge that does not mention the set `rest`, at a place, on the line with this number. It adds no
// words to the table.
fn list(text: &[u8], number: usize, place: Place, rest: usize, words: &[u32; Model::WORDS]) -> Round
    requires { (place.byte < length text.now) × (length text.now ≤ max_bytes) }
    ensures { result ≡ list_round text.now number place rest words.now }
{
    let counts = place.counts;
    let variables = counts.variables;
    let (here, stop) = line_at(text, place);
    if let Err(row) = read_writes_line::read(here, variables, rest) {
        return Err(Refusal { row, line: number });
    }
    if writes_others(place, rest, words) {
        return refused(51, number);
    }
    Ok(Some(place.after_behind(stop)))
}

// What is due first at a place, behind the line before: its owner, or its list.
#[tactic(auto, using(crate::proofs::SheetLaws::due_laws))]
fn due_behind(
    text: &[u8],
    number: usize,
    place: Place,
    behind: Behind,
    words: &mut [u32; Model::WORDS],
) -> Round
    requires { (place.byte < length text.now) × (length text.now ≤ max_bytes) }
    ensures { (result ≡ due_round text.now number place words.old (Some behind))
        × (words.new ≡ due_round_after text.now place words.old (Some behind)) }
{
    match behind {
        Behind::Owner => owner(text, number, place, words),
        Behind::Writes(rest) => list(text, number, place, rest, words),
    }
}

// One round: no line is left, or none is due, or an owner, a list or a line is read.
fn round(text: &[u8], number: usize, place: Place, words: &mut [u32; Model::WORDS]) -> Round
    requires { length text.now ≤ max_bytes }
    ensures { (result ≡ round_at text.now number place words.old)
        × (words.new ≡ round_after text.now place words.old) }
{
    let byte = place.byte;
    let due = place.due;
    let key = due.key;
    let end = line_order::end(key);
    if text.len() <= byte {
        if end & place.behind.is_none() {
            return Ok(None);
        }
        return refused(2, number);
    }
    match place.behind {
        Some(behind) => due_behind(text, number, place, behind, words),
        None => {
            if end {
                return refused(2, number);
            }
            line(text, number, place, words)
        }
    }
}

// The text's lines into `words`, one after the other.
pub(crate) fn sheet(text: &[u8], words: &mut [u32; Model::WORDS]) -> Result<(), Refusal>
    requires { length text.now ≤ max_bytes }
    ensures { (result ≡ (sheet_read text.now words.old).answer)
        × (words.new ≡ (sheet_read text.now words.old).words) }
{
    let mut place = Place::first();
    // Each line takes a byte at least, so the text has been read before the rounds are over; the last finds the end.
    for number in 1..Model::BYTES + 2 {
        match round(text, number, place, words)? {
            Some(later) => place = later,
            None => return Ok(()),
        }
    }
    Err(Refusal {
        row: Row(2),
        line: 0,
    })
}
