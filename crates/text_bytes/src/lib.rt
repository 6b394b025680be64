// The leaf functions of the sheet reader and writer, over byte slices: finding, comparing, writing.
#![tactic(auto)]

mod bytes;
mod place;
mod write;

pub use bytes::{begins, count, digit, printable, same, starts_number};
pub use place::find;
pub use write::{copy, decimal, signed};
