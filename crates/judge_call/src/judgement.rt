// The judgement over a table that is known to be good, by its sheet and the automata's own sets, which a caller finds
// once.
#![tactic(auto, using(crate::proofs::JudgementLaws::judgement_laws))]

ghost use Rattle.std.specs.Prelude.{◌≡◌};
ghost use Rattle.judge_call.specs.Calls.{environment_by, environment_on, environment_from};
ghost use Rattle.judge_call.specs.Calls.{step_by, step_on, step_from};

use crate::Answer;
use crate::owners::{self};
use crate::taken::{self};
use judge_rows::{Phase, State};
use model::Row;
use table_places::Sheet;

// What the rules say of a change of values from s to t.
fn environment_by(sheet: &Sheet<'_>, s: State, t: State) -> Result<Answer, Row>
    ensures { result ≡ environment_by sheet.now.words.now sheet.now.layout s t }
{
    if !judge_settled::settled(sheet, s, t) {
        return Ok(Answer::No);
    }
    if owners::owned_keep(sheet, s, t) {
        Ok(Answer::Yes)
    } else {
        Ok(Answer::No)
    }
}

// A call of the environment judge: the automata keep their locations.
pub(crate) fn environment_on(
    sheet: &Sheet<'_>,
    phase: u32,
    locations: &[u32],
    values: &[i32],
    new_values: &[i32],
) -> Result<Answer, Row>
    ensures { result ≡ environment_on sheet.now.words.now sheet.now.layout phase locations.now
        values.now new_values.now }
{
    let p = judge_rows::admit(sheet, phase, locations, values, locations, new_values)?;
    let s = State::of(p, locations, values);
    let t = State::of(Phase::Running, locations, new_values);
    environment_by(sheet, s, t)
}

// The same from a state that has passed the rows, to t, the state with the new values.
pub fn environment_from(
    sheet: &Sheet<'_>,
    s: State,
    new_values: &[i32],
    t: State,
) -> Result<Answer, Row>
    ensures { result ≡ environment_from sheet.now.words.now sheet.now.layout s new_values.now t }
{
    judge_rows::values_checked(sheet, new_values)?;
    environment_by(sheet, s, t)
}

// Row 24, and what the rules say of a step from s to t.
fn step_by(sheet: &Sheet<'_>, own: &[u64], s: State, action: u32, t: State) -> Result<Answer, Row>
    ensures { result ≡ step_by sheet.now.words.now sheet.now.layout own.now s action t }
{
    if !judge_rows::action_known(&sheet.layout, action) {
        return Err(Row(24));
    }
    if !judge_settled::settled(sheet, s, t) {
        return Ok(Answer::No);
    }
    if !taken::taken(sheet, own, s, action, t) {
        return Ok(Answer::No);
    }
    Ok(Answer::Marked(taken::mark(sheet, own, action)))
}

// A call of the step judge.
pub(crate) fn step_on(
    sheet: &Sheet<'_>,
    own: &[u64],
    phase: u32,
    locations: &[u32],
    values: &[i32],
    action: u32,
    new_locations: &[u32],
    new_values: &[i32],
) -> Result<Answer, Row>
    ensures { result ≡ step_on sheet.now.words.now sheet.now.layout own.now phase
        locations.now values.now action new_locations.now
        new_values.now }
{
    let p = judge_rows::admit(sheet, phase, locations, values, new_locations, new_values)?;
    let before = State::of(p, locations, values);
    let after = State::of(Phase::Running, new_locations, new_values);
    step_by(sheet, own, before, action, after)
}

// The same from a state that has passed the rows, to t, the state of the new lists.
pub fn step_from(
    sheet: &Sheet<'_>,
    own: &[u64],
    s: State,
    action: u32,
    new_locations: &[u32],
    new_values: &[i32],
    t: State,
) -> Result<Answer, Row>
    ensures { result ≡ step_from sheet.now.words.now sheet.now.layout own.now s action
        new_locations.now new_values.now t }
{
    judge_rows::state_checked(sheet, new_locations, new_values)?;
    step_by(sheet, own, s, action, t)
}
