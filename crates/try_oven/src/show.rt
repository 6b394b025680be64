// What the program writes. Each function answers false where a write failed.
use judge::Answer;
use model::Row;
use std::fmt::Display;
use std::io::{Stdout, Write};

pub(crate) fn text(mut screen: Stdout, s: &[u8]) -> bool {
    screen.write_all(s).is_ok()
}

pub(crate) fn number(mut screen: Stdout, n: impl Display + Drop) -> bool {
    write!(screen, "{n}").is_ok()
}

fn comma(screen: Stdout, first: bool) -> bool {
    if first {
        return true;
    }
    text(screen, b",")
}

// (L,L,..), then a comma and its value for each variable.
pub(crate) fn place(screen: Stdout, locations: &[u32], values: &[i32]) -> bool {
    text(screen, b"(")
        & all_locations(screen, locations)
        & text(screen, b")")
        & all_values(screen, values)
}

fn all_locations(screen: Stdout, locations: &[u32]) -> bool {
    let mut well = true;
    for (i, location) in locations.iter().enumerate() {
        well &= comma(screen, i == 0) & number(screen, *location);
    }
    well
}

fn all_values(screen: Stdout, values: &[i32]) -> bool {
    let mut well = true;
    for z in values {
        well &= text(screen, b",") & number(screen, *z);
    }
    well
}

pub(crate) fn phase(screen: Stdout, p: u32) -> bool {
    match p {
        0 => text(screen, b"start "),
        1 => text(screen, b"running "),
        _ => text(screen, b"phase ") & number(screen, p) & text(screen, b" "),
    }
}

// The answer and the end of the line.
pub(crate) fn answer(screen: Stdout, a: Result<Answer, Row>) -> bool {
    match a {
        Ok(Answer::Yes) => text(screen, b": yes\n"),
        Ok(Answer::Marked(true)) => text(screen, b": yes, true\n"),
        Ok(Answer::Marked(false)) => text(screen, b": yes, false\n"),
        Ok(Answer::No) => text(screen, b": no\n"),
        Err(row) => text(screen, b": refused ") & number(screen, row.0) & text(screen, b"\n"),
    }
}
