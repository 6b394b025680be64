// One call of a judge: is a proposed step of the composition allowed? The judges know a checked table, and nothing of
// how a text spells it.
#![tactic(auto)]

mod judgement;
mod owners;
mod taken;

ghost use Rattle.std.specs.Prelude.{◌≡◌, ◌%◌, ◌^◌};
ghost use Rattle.model.specs.Judge.{step_answer, environment_answer};
ghost use Rattle.judge_call.specs.Answers.{answer_of, answer_number};

pub use judgement::{environment_from, step_from};
use model::Row;
use table_places::Sheet;

// Yes is the environment judge's; the step judge says yes with the mark.
#[derive(Clone, Copy, Debug, PartialEq, Eq)]
pub enum Answer {
    Yes,
    Marked(bool),
    No,
}

// May the variables become `new_values` while every automaton is still?
#[tactic(auto, using(crate::proofs::CallLaws::environment_laws))]
pub fn environment(
    table: &[u32],
    phase: u32,
    locations: &[u32],
    values: &[i32],
    new_values: &[i32],
) -> Result<Answer, Row>
    ensures { answer_of result ≡ environment_answer table.now phase locations.now
        values.now new_values.now }
{
    table_check::check(table)?;
    judgement::environment_on(&Sheet::of(table), phase, locations, values, new_values)
}

// May the composition take the action, from the locations and values to the new ones? Yes comes with the mark.
// The lists are parameters of their own, here and at `environment`: the C interface hands them so.
#[tactic(auto, using(crate::proofs::StepLaws::step_laws))]
pub fn step(
    table: &[u32],
    phase: u32,
    locations: &[u32],
    values: &[i32],
    action: u32,
    new_locations: &[u32],
    new_values: &[i32],
) -> Result<Answer, Row>
    ensures { answer_of result ≡ step_answer table.now phase locations.now values.now
        action new_locations.now new_values.now }
{
    table_check::check(table)?;
    let sheet = Sheet::of(table);
    let own = table_places::own_sets(table, sheet.layout);
    judgement::step_on(
        &sheet,
        &own,
        phase,
        locations,
        values,
        action,
        new_locations,
        new_values,
    )
}

// An answer as one number: 0 no, 1 yes, 2 yes with the mark true; 100 + row refused. The sum wraps on no answer that a
// judge gives.
#[tactic(auto, using(crate::proofs::NumberLaws::number_laws))]
pub fn number(answer: Result<Answer, Row>) -> u32
    ensures { result ≡ answer_number (answer_of answer) % 2 ^ 32 }
{
    match answer {
        Ok(Answer::No) => 0,
        Ok(Answer::Yes) => 1,
        Ok(Answer::Marked(mark)) => { if mark { 2 } else { 1 } }
        Err(row) => 100u32.wrapping_add(row.0),
    }
}
