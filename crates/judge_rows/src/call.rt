// Rows 20 to 23 of a call, in their order.
#![tactic(auto, using(crate::proofs::CodeLaws::call_laws))]

ghost use Rattle.std.specs.Prelude.{◌≡◌, length};
ghost use Rattle.judge_rows.specs.Checks.{state_checked, values_checked, lists_checked, admitted_on, begun_on};

use crate::Phase;
use crate::rows::{self};
use model::Row;
use table_places::Sheet;

// Rows 21 to 23 of one state.
pub fn state_checked(sheet: &Sheet<'_>, locations: &[u32], values: &[i32]) -> Result<(), Row>
    ensures { result ≡ state_checked sheet.now.words.now sheet.now.layout locations.now values.now }
{
    if !rows::lengths(&sheet.layout, locations.len(), values.len()) {
        return Err(Row(21));
    }
    if !rows::locations_known(sheet, locations) {
        return Err(Row(22));
    }
    if !rows::values_known(sheet, values) {
        return Err(Row(23));
    }
    Ok(())
}

// Rows 21 and 23 of values for locations that have passed.
pub fn values_checked(sheet: &Sheet<'_>, values: &[i32]) -> Result<(), Row>
    ensures { result ≡ values_checked sheet.now.words.now sheet.now.layout values.now }
{
    if values.len() != sheet.layout.variables {
        return Err(Row(21));
    }
    if !rows::values_known(sheet, values) {
        return Err(Row(23));
    }
    Ok(())
}

// Rows 21 to 23: the lists before and after.
fn lists(
    sheet: &Sheet<'_>,
    locations: &[u32],
    values: &[i32],
    new_locations: &[u32],
    new_values: &[i32],
) -> Result<(), Row>
    ensures { result ≡ lists_checked sheet.now.words.now sheet.now.layout locations.now values.now
        new_locations.now new_values.now }
{
    if !rows::lengths(&sheet.layout, locations.len(), values.len())
        | !rows::lengths(&sheet.layout, new_locations.len(), new_values.len())
    {
        return Err(Row(21));
    }
    if !rows::locations_known(sheet, locations) | !rows::locations_known(sheet, new_locations) {
        return Err(Row(22));
    }
    if !rows::values_known(sheet, values) | !rows::values_known(sheet, new_values) {
        return Err(Row(23));
    }
    Ok(())
}

// Rows 20 to 23: the phase of a call that passes, or the first row that refuses it.
pub fn admit(
    sheet: &Sheet<'_>,
    phase: u32,
    locations: &[u32],
    values: &[i32],
    new_locations: &[u32],
    new_values: &[i32],
) -> Result<Phase, Row>
    ensures { result ≡ admitted_on sheet.now.words.now sheet.now.layout phase locations.now values.now
        new_locations.now new_values.now }
{
    let p = Phase::try_from(phase)?;
    lists(sheet, locations, values, new_locations, new_values)?;
    Ok(p)
}

// Rows 20 to 23 of one state: the phase that a run starts in, or the first row that refuses it.
pub fn begun(sheet: &Sheet<'_>, phase: u32, locations: &[u32], values: &[i32]) -> Result<Phase, Row>
    ensures { result ≡ begun_on sheet.now.words.now sheet.now.layout locations.now values.now phase }
{
    let p = Phase::try_from(phase)?;
    state_checked(sheet, locations, values)?;
    Ok(p)
}
