// A list of proposals, for C and Rust.
ghost use Rattle.std.specs.Prelude.{◌≡◌, length};
ghost use Rattle.judge.specs.RunAnswer.{run_answer, answers_after, locations_after, values_after};
ghost use Rattle.exports.specs.Numbers.{run_number};

// Puts a list of proposals to the judges, over one check of the table: for each an action, or 2^32 - 1 for the
// environment judge, its locations and its values. The phase at the end, when the answers' numbers are in `answers`
// and the state at the end is in `end_locations` and `end_values`; or, when these are as they were, 100 and the row
// that refuses the table, the phase or the state at the start, 201 for lists that do not fit together, 202 for too
// few answers, 203 for too little room for the state at the end.
#[unsafe(no_mangle)]
pub extern "C" fn sheet_run(
    table: &[u32],
    phase: u32,
    locations: &[u32],
    values: &[i32],
    actions: &[u32],
    new_locations: &[u32],
    new_values: &[i32],
    answers: &mut [u32],
    end_locations: &mut [u32],
    end_values: &mut [i32],
) -> u32
    ensures value { result ≡ run_number (run_answer table.now phase locations.now
        values.now actions.now new_locations.now new_values.now
        (length answers.old) (length end_locations.old) (length end_values.old)) }
    ensures answers_after { answers.new ≡ answers_after (run_answer table.now phase locations.now
        values.now actions.now new_locations.now new_values.now
        (length answers.old) (length end_locations.old) (length end_values.old))
        answers.old }
    ensures end_locations_after { end_locations.new ≡ locations_after (run_answer table.now phase
        locations.now values.now actions.now new_locations.now
        new_values.now (length answers.old) (length end_locations.old)
        (length end_values.old)) end_locations.old }
    ensures end_values_after { end_values.new ≡ values_after (run_answer table.now phase
        locations.now values.now actions.now new_locations.now
        new_values.now (length answers.old) (length end_locations.old)
        (length end_values.old)) end_values.old }
{
    let ran = judge::run(
        table,
        phase,
        locations,
        values,
        actions,
        new_locations,
        new_values,
        answers,
        end_locations,
        end_values,
    );
    answer_numbers::run_number(ran)
}
