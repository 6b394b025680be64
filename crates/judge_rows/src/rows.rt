// Rows 20 to 24, over the words of a table and its layout. Each test is true where its row lets a call pass.
#![tactic(auto, using(crate::proofs::CodeLaws::row_laws))]

ghost use Rattle.std.specs.Prelude.{◌≡◌};
ghost use Rattle.model.specs.Basic.{between};
ghost use Rattle.model.specs.Runs.{phase_number};
ghost use Rattle.judge_rows.specs.Phases.{phase_is};
ghost use Rattle.judge_rows.specs.RowTests.{phase_read, lengths_fit, location_known, locations_known};
ghost use Rattle.judge_rows.specs.RowTests.{range_has, values_known, action_known};

use crate::Phase;
use model::Row;
use table_places::{Layout, Sheet};

// Row 20: the phase that has this number.
impl TryFrom<u32> for Phase {
    type Error = Row;

    ghost try_from_gives = { λ phase result. result ≡ phase_read phase };

    fn try_from(phase: u32) -> Result<Phase, Row> {
        match phase {
            0 => Ok(Phase::Start),
            1 => Ok(Phase::Running),
            _ => Err(Row(20)),
        }
    }
}

impl From<Phase> for u32 {
    ghost from_gives = { λ phase result. result ≡ phase_number (phase_is phase) };

    fn from(phase: Phase) -> u32 {
        match phase {
            Phase::Start => 0,
            Phase::Running => 1,
        }
    }
}

// A phase as its number.
pub fn phase_number(phase: Phase) -> u32
    ensures { result ≡ phase_number (phase_is phase) }
{
    u32::from(phase)
}

// Row 21: a list of so many locations and one of so many values have one for each automaton and each variable.
pub(crate) fn lengths(layout: &Layout, locations: usize, values: usize) -> bool
    ensures { result ≡ lengths_fit layout.now locations values }
{
    (locations == layout.automata) & (values == layout.variables)
}

// The automaton at `at` has the location that the list gives automaton k.
fn location_known(words: &[u32], at: usize, locations: &[u32], k: usize) -> bool
    ensures { result ≡ location_known words.now locations.now at k }
{
    table_places::word(locations, k) < table_places::location_count(words, at)
}

// Row 22: each automaton has its location.
pub(crate) fn locations_known(sheet: &Sheet<'_>, locations: &[u32]) -> bool
    ensures { result ≡ locations_known sheet.now.words.now sheet.now.layout locations.now }
{
    let n = table_places::automata_of(sheet.layout);
    (0..n).all(|k| location_known(sheet.words, sheet.layout.sets[k], locations, k))
}

fn within(low: i64, high: i64, value: i64) -> bool
    ensures { result ≡ between low high value }
{
    (low <= value) & (value <= high)
}

// The range of variable k has the value that the list gives it.
fn value_known(words: &[u32], values: &[i32], k: usize) -> bool
    ensures { result ≡ range_has words.now values.now k }
{
    let at = table_places::range_at(words, k);
    let low = arithmetic::unbias(table_places::low(words, at));
    let high = arithmetic::unbias(table_places::high(words, at));
    within(low, high, arithmetic::value(values, k))
}

// Row 23: each variable's value is in its range.
pub(crate) fn values_known(sheet: &Sheet<'_>, values: &[i32]) -> bool
    ensures { result ≡ values_known sheet.now.words.now sheet.now.layout values.now }
{
    (0..sheet.layout.variables).all(|k| value_known(sheet.words, values, k))
}

// Row 24: the model has the action.
pub fn action_known(layout: &Layout, action: u32) -> bool
    ensures { result ≡ action_known layout.now action }
{
    arithmetic::index(action) <= layout.actions
}
