// The judges: is a proposed step of the composition allowed? One by one, or a list of proposals over one check of the
// table.
#![tactic(auto)]

ghost use Rattle.std.specs.Prelude.{◌≡◌, length};
ghost use Rattle.model.specs.Table.{open_table};
ghost use Rattle.judge.specs.RunAnswer.{run_answer, ran_of, answers_after, locations_after, values_after};
ghost use Rattle.judge.specs.TableSize.{size_of};

pub use judge_call::{Answer, environment, number, step};
pub use judge_rows::{Phase, State, phase_number};
pub use judge_runs::RunError;
use model::Row;

// Puts a list of proposals to the judges, over one check of the table and one walk over it. For each: its action, or
// 4294967295 for the environment judge; its locations, which that judge does not read; its values. A yes moves the run
// to the proposed state. The answers' numbers go into `answers`, the locations and values at the end into the other
// two, and what follows them is as it was. The lists are parameters of their own: the C interface hands them so.
pub fn run(
    table: &[u32],
    phase: u32,
    locations: &[u32],
    values: &[i32],
    actions: &[u32],
    new_locations: &[u32],
    new_values: &[i32],
    answers: &mut [u32],
    end_locations: &mut [u32],
    end_values: &mut [i32],
) -> Result<Phase, RunError>
    ensures value { result ≡ ran_of (run_answer table.now phase locations.now values.now
        actions.now new_locations.now new_values.now
        (length answers.old) (length end_locations.old) (length end_values.old)) }
    ensures answers_after { answers.new ≡ answers_after (run_answer table.now phase locations.now
        values.now actions.now new_locations.now new_values.now
        (length answers.old) (length end_locations.old) (length end_values.old))
        answers.old }
    ensures end_locations_after { end_locations.new ≡ locations_after (run_answer table.now phase
        locations.now values.now actions.now new_locations.now
        new_values.now (length answers.old) (length end_locations.old)
        (length end_values.old)) end_locations.old }
    ensures end_values_after { end_values.new ≡ values_after (run_answer table.now phase
        locations.now values.now actions.now new_locations.now
        new_values.now (length answers.old) (length end_locations.old)
        (length end_values.old)) end_values.old }
{
    table_check::check(table)?;
    judge_runs::over(
        table,
        phase,
        locations,
        values,
        actions,
        new_locations,
        new_values,
        answers,
        end_locations,
        end_values,
    )
}

// How many actions (the silent one not counted), variables and automata a table has.
#[derive(Clone, Copy, Debug, PartialEq, Eq)]
pub struct TableSize {
    pub actions: usize,
    pub variables: usize,
    pub automata: usize,
}

// Those of the table, or the row that refuses it.
#[tactic(auto, using(crate::proofs::SizeLaws::size_laws))]
pub fn size(table: &[u32]) -> Result<TableSize, Row>
    ensures { result ≡ size_of (open_table table.now) }
{
    table_check::check(table)?;
    Ok(TableSize {
        actions: table_places::actions(table),
        variables: table_places::variables(table),
        automata: table_places::automata(table),
    })
}
