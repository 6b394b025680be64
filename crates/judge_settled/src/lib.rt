// What holds of every automaton, whether it takes an edge or is still: its location's init (in phase Start) and inv.
// And what holds of the composition, whoever takes an edge: the P of each `ini` (in phase Start).
#![tactic(auto, using(crate::proofs::CodeLaws::code_laws))]

ghost use Rattle.std.specs.Prelude.{◌≡◌, get_or};
ghost use Rattle.judge_settled.specs.Settled.{part_at, part_holds, location_holds, all_hold, starts_hold_at, started};
ghost use Rattle.judge_settled.specs.Settled.{settled_at};

use judge_rows::{Phase, State};
use table_places::Sheet;

// Which of a location's two predicates.
#[derive(Clone, Copy, Debug, PartialEq, Eq)]
pub enum Part {
    Init,
    Inv,
}

// Automaton k's location; there is none past the end, and the definitions read 0 there.
fn location(s: State, k: usize) -> usize
    ensures { result ≡ get_or s.locations k 0 }
{
    s.locations
        .get(k)
        .map_or(0, |location| arithmetic::index(*location))
}

// Where a predicate of location j stands, `at` being where the automaton does.
fn part_at(words: &[u32], part: Part, at: usize, j: usize) -> usize
    ensures { result ≡ part_at words.now part at j }
{
    let init = table_places::location_at(words, table_places::first_location(words, at), j);
    match part {
        Part::Init => init,
        Part::Inv => table_places::after_predicate(words, init),
    }
}

// The predicate at `at`, its count first, holds of the state's values.
fn part_holds(sheet: &Sheet<'_>, at: usize, s: State) -> bool
    ensures { result ≡ part_holds sheet.now.words.now sheet.now.layout s.values at }
{
    let n = table_places::variables_of(sheet.layout);
    let nodes = table_places::nodes_at(sheet.words, at);
    let values = s.values;
    let known = &values[..n];
    evaluator::holds(sheet.words, nodes, known, known)
}

// The predicate of automaton k's location holds, where `at` is the automaton's place.
fn location_holds(sheet: &Sheet<'_>, part: Part, s: State, at: usize, k: usize) -> bool
    ensures { result ≡ location_holds sheet.now.words.now sheet.now.layout part s at k }
{
    part_holds(sheet, part_at(sheet.words, part, at, location(s, k)), s)
}

// The predicate of each automaton's location holds.
fn all_hold(sheet: &Sheet<'_>, part: Part, s: State) -> bool
    ensures { result ≡ all_hold sheet.now.words.now sheet.now.layout part s }
{
    let n = table_places::automata_of(sheet.layout);
    (0..n).all(|k| location_holds(sheet, part, s, sheet.layout.sets[k], k))
}

// Every P holds. They are predicates, one after the other.
fn starts_hold(sheet: &Sheet<'_>, s: State) -> bool
    ensures { result ≡ starts_hold_at sheet.now.words.now sheet.now.layout s }
{
    let place = table_places::starts_at(sheet.words, sheet.layout);
    let n = table_places::start_count(sheet.words, place);
    let mut at = table_places::first_start(sheet.words, place);
    for _ in 0..n {
        if !part_holds(sheet, at, s) {
            return false;
        }
        at = table_places::after_predicate(sheet.words, at);
    }
    true
}

// In phase Start every init and every P holds; in phase Running they play no part.
fn started(sheet: &Sheet<'_>, s: State) -> bool
    ensures { result ≡ started sheet.now.words.now sheet.now.layout s }
{
    match s.phase {
        Phase::Start => all_hold(sheet, Part::Init, s) & starts_hold(sheet, s),
        Phase::Running => true,
    }
}

// For a step or a change from s to t: the inits, P's and invs that s needs, and the invs of t.
pub fn settled(sheet: &Sheet<'_>, s: State, t: State) -> bool
    ensures { result ≡ settled_at sheet.now.words.now sheet.now.layout s t }
{
    if !started(sheet, s) {
        return false;
    }
    if !all_hold(sheet, Part::Inv, s) {
        return false;
    }
    all_hold(sheet, Part::Inv, t)
}
