// A list of proposals over a table that is known to be good. The table's layout and `own`, the automata's own sets, are
// found once for the list; and a state that a yes led to is not checked again.
#![tactic(auto, using(crate::proofs::RunCodeLaws::run_laws))]

ghost use Rattle.std.specs.Prelude.{◌≡◌, ◌≤◌, true, Ok, length};
ghost use Rattle.table_places.specs.Layout.{automata_of, variables_of};
ghost use Rattle.judge_lists.specs.Lists.{end_fits};
ghost use Rattle.judge_runs.specs.declared.RunError.TheVariants.{Refused};
ghost use Rattle.judge_runs.specs.RunWords.{go_on, ran_on, listed_on, over_on, Leaves};

use judge_rows::{Phase, State};
use model::Row;
use table_places::Sheet;

// Why a list is not run: the row that refuses the table, the phase or the state that it starts from; or a fault of the
// list: not one location for each automaton and one value for each variable at each proposal, no place for each answer,
// no place for the state.
#[derive(Clone, Copy, Debug, PartialEq, Eq)]
pub enum RunError {
    Refused(Row),
    Uneven,
    AnswersShort,
    EndShort,
}

impl From<Row> for RunError {
    ghost from_gives = { λ row e. e ≡ Refused row };

    fn from(row: Row) -> RunError {
        RunError::Refused(row)
    }
}

// The proposals of a list: their actions, and the locations and the values of all of them, one proposal's after the
// other's.
#[derive(Clone, Copy, Debug, PartialEq, Eq)]
struct Proposals<'a> {
    actions: &'a [u32],
    locations: &'a [u32],
    values: &'a [i32],
}

// Every proposal in its turn: its locations and values are the next ones. Gives the state at the end.
fn all(
    sheet: &Sheet<'_>,
    own: &[u64],
    start: State,
    proposals: &Proposals<'_>,
    answers: &mut [u32],
) -> State
    requires { length proposals.now.actions.now ≤ length answers.old }
    ensures value { result ≡ (go_on sheet.now.words.now sheet.now.layout own.now
        (automata_of sheet.now.layout) (variables_of sheet.now.layout) start answers.old 0
        proposals.now.actions.now proposals.now.locations.now
        proposals.now.values.now).state }
    ensures answers_after { answers.new ≡ (go_on sheet.now.words.now sheet.now.layout own.now
        (automata_of sheet.now.layout) (variables_of sheet.now.layout) start answers.old 0
        proposals.now.actions.now proposals.now.locations.now
        proposals.now.values.now).answers }
{
    let n = table_places::automata_of(sheet.layout);
    let v = table_places::variables_of(sheet.layout);
    let mut s = start;
    let mut all_locations = proposals.locations;
    let mut all_values = proposals.values;
    for (k, action) in proposals.actions.iter().enumerate() {
        let (locations, later_locations) = all_locations.split_at(n.min(all_locations.len()));
        let (values, later_values) = all_values.split_at(v.min(all_values.len()));
        let turn = judge_turn::put(sheet, own, s, *action, locations, values);
        answers[k] = turn.number;
        s = turn.state;
        all_locations = later_locations;
        all_values = later_values;
    }
    s
}

// The run of a list that has no fault: the phase at its end; the answers and the rest of the end are in lent memory.
fn ended(
    sheet: &Sheet<'_>,
    own: &[u64],
    start: State,
    proposals: &Proposals<'_>,
    answers: &mut [u32],
    end_locations: &mut [u32],
    end_values: &mut [i32],
) -> Phase
    requires actions_in_bounds { length proposals.now.actions.now ≤ length answers.old }
    requires end_values_value { end_fits sheet.now.layout (length end_locations.old)
        (length end_values.old) ≡ true }
    ensures { Leaves (ran_on sheet.now.words.now sheet.now.layout own.now start
        proposals.now.actions.now proposals.now.locations.now
        proposals.now.values.now answers.old end_locations.old end_values.old)
        (Ok result) answers.new end_locations.new end_values.new }
{
    let end = all(sheet, own, start, proposals, answers);
    judge_lists::keep(&sheet.layout, end, end_locations, end_values)
}

// A list from the state that its run starts in: a fault of its own; or the run, with the answers and the end in lent
// memory.
fn listed(
    sheet: &Sheet<'_>,
    own: &[u64],
    start: State,
    proposals: &Proposals<'_>,
    answers: &mut [u32],
    end_locations: &mut [u32],
    end_values: &mut [i32],
) -> Result<Phase, RunError>
    ensures { Leaves (listed_on sheet.now.words.now sheet.now.layout own.now start
        proposals.now.actions.now proposals.now.locations.now
        proposals.now.values.now answers.old end_locations.old end_values.old)
        result answers.new end_locations.new end_values.new }
{
    let count = proposals.actions.len();
    let locations = proposals.locations.len();
    let values = proposals.values.len();
    if !judge_lists::lengths_for(&sheet.layout, count, locations, values) {
        return Err(RunError::Uneven);
    }
    if answers.len() < count {
        return Err(RunError::AnswersShort);
    }
    if !judge_lists::end_fits(&sheet.layout, end_locations.len(), end_values.len()) {
        return Err(RunError::EndShort);
    }
    Ok(ended(
        sheet,
        own,
        start,
        proposals,
        answers,
        end_locations,
        end_values,
    ))
}

// The whole call over a good table: rows 20 to 23 of the state that the run starts from, and then the list. The lists
// are parameters of their own: the C interface hands them so.
pub fn over(
    words: &[u32],
    phase: u32,
    locations: &[u32],
    values: &[i32],
    actions: &[u32],
    new_locations: &[u32],
    new_values: &[i32],
    answers: &mut [u32],
    end_locations: &mut [u32],
    end_values: &mut [i32],
) -> Result<Phase, RunError>
    ensures { Leaves (over_on words.now phase locations.now values.now
        actions.now new_locations.now new_values.now answers.old
        end_locations.old end_values.old)
        result answers.new end_locations.new end_values.new }
{
    let sheet = Sheet::of(words);
    let p = judge_rows::begun(&sheet, phase, locations, values)?;
    let own = table_places::own_sets(words, sheet.layout);
    let start = State::of(p, locations, values);
    let proposals = Proposals {
        actions,
        locations: new_locations,
        values: new_values,
    };
    listed(
        &sheet,
        &own,
        start,
        &proposals,
        answers,
        end_locations,
        end_values,
    )
}
