// Rows 6 to 11 of all P of a composition.
ghost use Rattle.std.specs.Prelude.{◌≡◌, length};
ghost use Rattle.read_predicate.specs.Scratch.{Scratch};
ghost use Rattle.read_starts.specs.Judged.{sum_up, smaller, one_more, begun, with_start, judged_all};

use crate::parts;
use model::{Model, Row};
use read_nodes::NodesError;

// The smallest row that a P breaks; how many nodes they have, and how many they are, as far as a tree can have so many.
#[derive(Clone, Copy, Debug, PartialEq, Eq)]
pub struct Judged {
    pub row: Option<Row>,
    pub nodes: usize,
    pub count: usize,
}

// As far as a sheet can have nodes; one more stands for any number above.
#[tactic(auto, using(crate::proofs::JudgingLaws::sum_laws))]
fn sum(a: usize, b: usize) -> usize
    ensures { result ≡ sum_up a b }
{
    if arithmetic::fits(a, b, Model::NODES) {
        a + b
    } else {
        Model::NODES + 1
    }
}

// Of a row and the smallest so far, if there is one, the smaller.
#[tactic(auto, using(crate::proofs::JudgingLaws::smaller_laws))]
fn smaller(row: Row, sofar: Option<Row>) -> Row
    ensures { result ≡ smaller row sofar }
{
    match sofar {
        Some(least) if least.0 < row.0 => least,
        _ => row,
    }
}

#[tactic(auto, using(crate::proofs::JudgingLaws::more_laws))]
fn one_more(count: usize) -> usize
    ensures { result ≡ one_more count }
{
    if count < model::Tree::NODES {
        count + 1
    } else {
        count
    }
}

// Before the first P. The nodes before this line count to row 11 even if none are added.
#[tactic(auto, using(crate::proofs::JudgingLaws::begun_laws))]
fn begun(before: usize) -> Judged
    ensures { result ≡ begun before }
{
    Judged {
        row: (Model::NODES < before).then_some(Row(11)),
        nodes: 0,
        count: 0,
    }
}

// With what was read of one P more.
#[tactic(auto, using(crate::proofs::JudgingLaws::with_laws))]
fn with_start(j: Judged, read: Result<usize, NodesError>) -> Judged
    ensures { result ≡ with_start j read }
{
    let j = Judged {
        count: one_more(j.count),
        ..j
    };
    match read {
        Ok(n) => Judged {
            nodes: sum(j.nodes, n),
            ..j
        },
        Err(NodesError::Row(row)) => Judged {
            row: Some(smaller(row, j.row)),
            ..j
        },
        Err(NodesError::Full) => Judged {
            row: Some(smaller(Row(6), j.row)),
            ..j
        },
    }
}

// Of the composition that `part` spells, as `read_nodes::read` judges a P: so many variables with these ranges, and so
// many nodes before this line.
pub fn judge(
    part: &[u8],
    variables: usize,
    ranges: &[u32],
    before: usize,
    nodes: &mut [u32],
    sorts: &mut [bool],
) -> Judged
    ensures value { result ≡ judged_all variables ranges.now before (length nodes.old)
        (length sorts.old) part.now }
    ensures scratch { Scratch nodes.old nodes.new
        × Scratch sorts.old sorts.new }
{
    let mut j = begun(before);
    let mut from = 0;
    while let Some(at) = read_extent::next(part, from) {
        let next = read_extent::after(part, at);
        let p = parts::between(part, at, next);
        let sofar = sum(before, j.nodes);
        let read = read_nodes::read(p, true, variables, ranges, sofar, nodes, sorts);
        j = with_start(j, read);
        from = next;
    }
    j
}
