// "On that oven" and "Wrong on a real oven".
use crate::ask::{self};
use crate::sheets::{self};
use crate::show::{self};
use std::io::Stdout;

fn steps(screen: Stdout, t: &[u32]) -> bool {
    show::text(screen, b"On the oven\n")
        & ask::oven(screen, t, 0, 0, 0, 1, 1, 1, 0, 0)
        & ask::oven(screen, t, 0, 0, 0, 0, 2, 0, 0, 1)
        & ask::oven(screen, t, 1, 1, 0, 0, 2, 1, 0, 1)
        & ask::oven(screen, t, 0, 1, 0, 0, 2, 1, 0, 0)
        & ask::outside(screen, t, 1, 1, 0, 0, 0)
        & ask::outside(screen, t, 1, 1, 0, 0, 1)
        & ask::oven(screen, t, 1, 0, 0, 1, 1, 1, 0, 1)
        & ask::oven(screen, t, 1, 0, 0, 1, 0, 0, 0, 1)
}

pub(crate) fn cases(screen: Stdout) -> bool {
    let t = sheets::table(&sheets::OVEN);
    steps(screen, &t)
}

// The door shares nothing: it does not take 1 alone, and the steam does.
pub(crate) fn one_sided(screen: Stdout) -> bool {
    let t = sheets::table(&sheets::ONE_SIDED);
    show::text(
        screen,
        b"Wrong: a sheet takes alone what only the other side shares (sync= in the door sheet)\n",
    ) & ask::oven(screen, &t, 0, 0, 0, 0, 1, 1, 0, 0)
        & ask::oven(screen, &t, 1, 0, 0, 0, 1, 1, 0, 0)
        & ask::oven(screen, &t, 1, 0, 0, 0, 1, 0, 0, 0)
}

pub(crate) fn wrong(screen: Stdout) -> bool {
    let t = sheets::table(&sheets::OVEN);
    show::text(
        screen,
        b"Wrong: v0 held still because the door sheet does not write it\n",
    ) & ask::oven(screen, &t, 1, 0, 0, 1, 1, 1, 0, 0)
        & show::text(
            screen,
            b"Wrong: a still sheet's inv skipped after the step\n",
        )
        & ask::oven(screen, &t, 1, 1, 0, 0, 2, 1, 0, 1)
        & ask::oven(screen, &t, 1, 0, 0, 0, 2, 0, 0, 1)
        & show::text(screen, b"Wrong: init tested again in phase 1\n")
        & ask::outside(screen, &t, 0, 1, 0, 0, 0)
        & ask::outside(screen, &t, 1, 1, 0, 0, 0)
}

fn both(screen: Stdout, t: &[u32], first: u32, second: u32) -> bool {
    let old = [0, 0];
    let new = [first, second];
    let before = [0i32; 1];
    let after = [0i32; 1];
    ask::step(screen, t, 0, &old, &before[..0], 1, &new, &after[..0])
}

pub(crate) fn pair(screen: Stdout) -> bool {
    let t = sheets::table(&sheets::PAIR);
    show::text(
        screen,
        b"Wrong: syn binds the sheets inside it (syn 1 par a0 a1)\n",
    ) & both(screen, &t, 1, 0)
        & both(screen, &t, 0, 1)
        & both(screen, &t, 1, 1)
}

fn three(
    screen: Stdout,
    t: &[u32],
    v0: i32,
    action: u32,
    door: u32,
    lamp: u32,
    new_v0: i32,
) -> bool {
    let old = [0, 0, 0];
    let before = [v0];
    let new = [door, 0, lamp];
    let after = [new_v0];
    ask::step(screen, t, 0, &old, &before, action, &new, &after)
}

// Three sheets share action 1: all take it, or none.
pub(crate) fn lamp(screen: Stdout) -> bool {
    let t = sheets::table(&sheets::LAMP);
    show::text(
        screen,
        b"With a lamp sheet that shares action 1 (par par a0 a1 a2)\n",
    ) & three(screen, &t, 1, 1, 1, 1, 0)
        & three(screen, &t, 1, 1, 1, 0, 0)
        & three(screen, &t, 1, 1, 0, 1, 0)
        & three(screen, &t, 0, 2, 0, 0, 1)
        & three(screen, &t, 0, 2, 0, 1, 1)
}
