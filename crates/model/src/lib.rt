// The vocabulary of the sheets: the limits that stand with their types, and the rows that refuse. The definitions are
// in specs/.
#![tactic(auto)]

ghost use Rattle.std.specs.Prelude.{Some};
ghost use Rattle.model.specs.Row.{row_text};

use std::fmt;

// What a sheet says, within these limits (specs/Bounds.antt).
#[derive(Drop)]
pub struct Model {}

impl Model {
    // The formats that are read.
    pub const FIRST_FORMAT: usize = 1;

    pub const LAST_FORMAT: usize = 3;

    // The first format with a line `writes=` after each edge.
    pub const WRITES_FORMAT: usize = 2;

    // The first format with a line `owner=` after each variable.
    pub const OWNERS_FORMAT: usize = 3;

    // Counts and numbers in a sheet.
    pub const ACTIONS: u32 = 63;

    pub const VARIABLES: usize = 48;

    pub const AUTOMATA: usize = 16;

    pub const LOCATIONS: usize = 32;

    pub const EDGES: usize = 512;

    pub const OPERANDS: u32 = 512;

    // The largest numbers that name an action, a location, a variable.
    pub const LAST_ACTION: usize = 63;

    pub const LAST_LOCATION: usize = 31;

    pub const LAST_VARIABLE: u32 = 47;

    pub const LAST_AUTOMATON: u32 = 15;

    // The numbers of expressions, and the bounds of variables.
    pub const LEAST_NUMBER: i32 = -1000000000;

    pub const GREATEST_NUMBER: i32 = 1000000000;

    // A bound is written in a table as itself plus the bias; the greatest number, with the bias.
    pub const BIAS: u32 = 1000000000;

    pub const LAST_BIASED: u32 = 2000000000;

    // The node words from here on are numbers, each with the bias.
    pub const FIRST_NUMBER_WORD: u32 = 2147483648;

    // The span that every expression's interval keeps to.
    pub const LEAST_VALUE: i64 = -4611686018427387904;

    pub const GREATEST_VALUE: i64 = 4611686018427387904;

    // Predicates: their nodes in all, and how deep one goes.
    pub const NODES: usize = 4096;

    pub const DEPTH: usize = 24;

    // The text, and the table.
    pub const BYTES: usize = 65536;

    pub const WORDS: usize = 16384;
}

// A row that refuses, by its number in document 01.
#[derive(Clone, Copy, Debug, PartialEq, Eq, PartialOrd, Ord)]
pub struct Row(pub u32);

impl fmt::Display for Row {
    ghost output = { λ r. Some (row_text r) };

    fn fmt<W: fmt::Write>(&self, f: &mut fmt::Formatter<W>) -> fmt::Result {
        write!(f, "row {}", self.0)
    }
}

// The composition.
#[derive(Drop)]
pub struct Tree {}

impl Tree {
    pub const NODES: usize = 64;
}
