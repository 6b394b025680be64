// One proposal of a run: its answer, and the state after it. The state that the run is in has passed the rows; the
// proposed one is checked.
#![tactic(auto, using(crate::proofs::TurnLaws::turn_laws))]

ghost use Rattle.std.specs.Prelude.{◌≡◌, eqb};
ghost use Rattle.judge_turn.specs.Turns.{environment_mark, judged_on, proposed_on, moved_to, turn_on};

use judge_call::Answer;
use judge_rows::{Phase, State};
use model::Row;
use table_places::Sheet;

// The environment stays a number among the actions: the promise of `judge::run` (`run_answer`) and the C interface have
// it so, and it is asked for here alone.
fn for_environment(action: u32) -> bool
    ensures { result ≡ eqb action environment_mark }
{
    action == 4294967295
}

// The answer to one proposal, from the state s that the run is in to the proposed state t.
fn judged(
    sheet: &Sheet<'_>,
    own: &[u64],
    s: State,
    action: u32,
    new_locations: &[u32],
    new_values: &[i32],
    t: State,
) -> Result<Answer, Row>
    ensures { result ≡ judged_on sheet.now.words.now sheet.now.layout own.now s action new_locations.now
        new_values.now t }
{
    if for_environment(action) {
        return judge_call::environment_from(sheet, s, new_values, t);
    }
    judge_call::step_from(sheet, own, s, action, new_locations, new_values, t)
}

// The state that is proposed: for the environment judge the automata keep their locations.
fn proposed(s: State, action: u32, new_locations: &[u32], new_values: &[i32]) -> State
    ensures { result ≡ proposed_on s action new_locations.now new_values.now }
{
    if for_environment(action) {
        let locations = s.locations;
        return State::of(Phase::Running, &locations, new_values);
    }
    State::of(Phase::Running, new_locations, new_values)
}

// Only a yes takes the run to the proposed state t.
fn moved(answer: Result<Answer, Row>, s: State, t: State) -> State
    ensures { result ≡ moved_to answer s t }
{
    match answer {
        Ok(Answer::Yes) | Ok(Answer::Marked(_)) => t,
        Ok(Answer::No) | Err(_) => s,
    }
}

// One proposal: the number of its answer, and the state after it.
#[derive(Clone, Copy, Debug, PartialEq, Eq)]
pub struct Turn {
    pub number: u32,
    pub state: State,
}

pub fn put(
    sheet: &Sheet<'_>,
    own: &[u64],
    s: State,
    action: u32,
    new_locations: &[u32],
    new_values: &[i32],
) -> Turn
    ensures { result ≡ turn_on sheet.now.words.now sheet.now.layout own.now s action new_locations.now
        new_values.now }
{
    let t = proposed(s, action, new_locations, new_values);
    let answer = judged(sheet, own, s, action, new_locations, new_values, t);
    let number = judge_call::number(answer);
    let state = moved(answer, s, t);
    Turn { number, state }
}
