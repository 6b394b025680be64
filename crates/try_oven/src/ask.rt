// One case: it is put to the judge and written as one line, the call and then the answer. False where a write failed.
use crate::show::{self};
use std::io::Stdout;

pub(crate) fn step(
    screen: Stdout,
    table: &[u32],
    phase: u32,
    locations: &[u32],
    values: &[i32],
    action: u32,
    new_locations: &[u32],
    new_values: &[i32],
) -> bool {
    let answer = judge::step(
        table,
        phase,
        locations,
        values,
        action,
        new_locations,
        new_values,
    );
    show::phase(screen, phase)
        & show::place(screen, locations, values)
        & show::text(screen, b" action ")
        & show::number(screen, action)
        & show::text(screen, b" to ")
        & show::place(screen, new_locations, new_values)
        & show::answer(screen, answer)
}

pub(crate) fn environment(
    screen: Stdout,
    table: &[u32],
    phase: u32,
    locations: &[u32],
    values: &[i32],
    new_values: &[i32],
) -> bool {
    let answer = judge::environment(table, phase, locations, values, new_values);
    show::phase(screen, phase)
        & show::place(screen, locations, values)
        & show::text(screen, b" environment to ")
        & show::place(screen, locations, new_values)
        & show::answer(screen, answer)
}

// A step on the oven: the locations of door and steam, then v0.
pub(crate) fn oven(
    screen: Stdout,
    table: &[u32],
    phase: u32,
    door: u32,
    steam: u32,
    v0: i32,
    action: u32,
    new_door: u32,
    new_steam: u32,
    new_v0: i32,
) -> bool {
    let old = [door, steam];
    let before = [v0];
    let new = [new_door, new_steam];
    let after = [new_v0];
    step(screen, table, phase, &old, &before, action, &new, &after)
}

// An environment step on the oven.
pub(crate) fn outside(
    screen: Stdout,
    table: &[u32],
    phase: u32,
    door: u32,
    steam: u32,
    v0: i32,
    new_v0: i32,
) -> bool {
    let old = [door, steam];
    let before = [v0];
    let after = [new_v0];
    environment(screen, table, phase, &old, &before, &after)
}
