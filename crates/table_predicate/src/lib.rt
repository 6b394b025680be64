// The node words of one predicate: one word a node, in prefix order. The walk says whether a predicate stands there,
// and where rows 9 and 10 are broken; the scans (scan.rt) are for rows 3, 7 and 8. All are total on any words.
#![tactic(auto)]

ghost use Rattle.std.specs.Prelude.{◌≡◌, pos, get_or};
ghost use Rattle.model.specs.Predicate.{range, hull, times};
ghost use Rattle.model.specs.Table.{unbiased};
ghost use Rattle.table_predicate.specs.Walk.{with_node, with_walk, with_interval, entered, reach_of, reached, span};
ghost use Rattle.table_predicate.specs.Walk.{declared_of, plus, minus, halt, join_of, gather, joined, predicate_at};
ghost use Rattle.table_predicate.specs.Walk.{expression_at, walk_at};

use node_words::Node;

pub mod scan;

// Why a walk ended.
#[derive(Clone, Copy, Debug, PartialEq, Eq)]
pub enum Stopped {
    // A node is nested too deep.
    Deep,
    // What stands there is no predicate.
    Stray,
}

// How far a walk came: past whole predicates and expressions, nested at most as deep as they may.
#[derive(Clone, Copy, Debug, PartialEq, Eq)]
pub struct Walked {
    // An expression's interval leaves the span of row 10.
    pub leaves: bool,
    // Where the words that are left begin.
    pub next: usize,
}

// A walk that ended: why, and how far it came. The intervals are made with 0 for what was not walked.
#[derive(Clone, Copy, Debug, PartialEq, Eq)]
pub struct Ended {
    pub why: Stopped,
    pub walk: Walked,
}

// The interval of an expression, cut to what an i64 holds.
#[derive(Clone, Copy, Debug, PartialEq, Eq)]
pub struct Interval {
    pub low: i64,
    pub high: i64,
}

// An expression in which the walk ended: why, and its interval, with 0 for what was not walked of it. Public, as
// Interval is, for those who cite the definitions.
#[derive(Clone, Copy, Debug, PartialEq, Eq)]
pub struct Halt {
    pub why: Stopped,
    pub interval: Interval,
}

impl From<Stopped> for Halt {
    ghost from_gives = { λ s h. h ≡ halt s };

    fn from(why: Stopped) -> Halt {
        Halt {
            why,
            interval: Interval { low: 0, high: 0 },
        }
    }
}

impl From<Halt> for Stopped {
    ghost from_gives = { λ h s. s ≡ h.why };

    fn from(halt: Halt) -> Stopped {
        halt.why
    }
}

// How an expression's interval comes from those of its two operands. Public for the same reason.
#[derive(Clone, Copy, Debug, PartialEq, Eq)]
pub enum Join {
    Sum,
    Difference,
    Product,
    Either,
}

// On to the node that comes next. Where no words are left, no node comes.
#[tactic(auto, unfolding(crate::specs::Walk::entered, crate::specs::Walk::with_node))]
fn enter(words: &[u32], walk: &mut Walked) -> Result<Node, Stopped>
    ensures { with_node result walk.new ≡ entered words.now walk.old }
{
    let at = walk.next;
    if words.len() <= at {
        return Err(Stopped::Stray);
    }
    walk.next = at + 1;
    Ok(node_words::node_of(words[at]))
}

// Past an expression with this interval, which is checked.
fn reached(walk: &mut Walked, low: i64, high: i64) -> Interval
    ensures { reach_of walk.new result ≡ reached walk.old (range low high) }
{
    walk.leaves |= !arithmetic::in_span(low, high);
    Interval { low, high }
}

fn number(walk: &mut Walked, argument: u32) -> Interval
    ensures { reach_of walk.new result ≡ reached walk.old (range (unbiased argument) (unbiased argument)) }
{
    let z = arithmetic::unbias(argument);
    reached(walk, z, z)
}

// Variable k lies in its declared range; one that is not declared is 0, as in the definitions.
fn variable(walk: &mut Walked, ranges: &[u32], k: usize) -> Interval
    ensures { reach_of walk.new result
        ≡ reached walk.old (get_or (declared_of ranges.now) k (range (pos 0) (pos 0))) }
{
    if ranges.len() / 3 <= k {
        return reached(walk, 0, 0);
    }
    reached(
        walk,
        arithmetic::unbias(ranges[3 * k]),
        arithmetic::unbias(ranges[3 * k + 1]),
    )
}

fn sum(walk: &mut Walked, x: Interval, y: Interval) -> Interval
    ensures { reach_of walk.new result ≡ reached walk.old (plus (span x) (span y)) }
{
    reached(
        walk,
        arithmetic::sum(x.low, y.low),
        arithmetic::sum(x.high, y.high),
    )
}

fn difference(walk: &mut Walked, x: Interval, y: Interval) -> Interval
    ensures { reach_of walk.new result ≡ reached walk.old (minus (span x) (span y)) }
{
    reached(
        walk,
        arithmetic::difference(x.low, y.high),
        arithmetic::difference(x.high, y.low),
    )
}

fn product(walk: &mut Walked, x: Interval, y: Interval) -> Interval
    ensures { reach_of walk.new result ≡ reached walk.old (times (span x) (span y)) }
{
    let a = arithmetic::product(x.low, y.low);
    let b = arithmetic::product(x.low, y.high);
    let c = arithmetic::product(x.high, y.low);
    let d = arithmetic::product(x.high, y.high);
    let low = arithmetic::lesser(arithmetic::lesser(a, b), arithmetic::lesser(c, d));
    let high = arithmetic::greater(arithmetic::greater(a, b), arithmetic::greater(c, d));
    reached(walk, low, high)
}

// Either of two.
fn either(walk: &mut Walked, x: Interval, y: Interval) -> Interval
    ensures { reach_of walk.new result ≡ reached walk.old (hull (span x) (span y)) }
{
    let low = arithmetic::lesser(x.low, y.low);
    let high = arithmetic::greater(x.high, y.high);
    reached(walk, low, high)
}

// Past an expression with two operands of these intervals.
#[tactic(auto, unfolding(crate::specs::Walk::join_of))]
fn past(walk: &mut Walked, how: Join, x: Interval, y: Interval) -> Interval
    ensures { reach_of walk.new result ≡ reached walk.old (join_of how (span x) (span y)) }
{
    match how {
        Join::Sum => sum(walk, x, y),
        Join::Difference => difference(walk, x, y),
        Join::Product => product(walk, x, y),
        Join::Either => either(walk, x, y),
    }
}

// The predicate that comes next, with nodes nested at most `left` deep.
#[cycle(expression_joined_operands_predicate)]
#[tactic(auto, using(crate::proofs::Steps::predicate_laws))]
fn predicate(words: &[u32], walk: &mut Walked, left: usize, ranges: &[u32]) -> Result<(), Stopped>
    ensures { with_walk result walk.new ≡ predicate_at words.now ranges.now left walk.old }
{
    if left == 0 {
        return Err(Stopped::Deep);
    }
    let node = enter(words, walk)?;
    let below = left - 1;
    match node {
        Node::All(k) | Node::Any(k) => operands(words, walk, arithmetic::index(k), below, ranges),
        Node::Not => predicate(words, walk, below, ranges),
        Node::Imp => {
            predicate(words, walk, below, ranges)?;
            predicate(words, walk, below, ranges)
        }
        Node::Eq | Node::Le => {
            expression(words, walk, below, ranges)?;
            expression(words, walk, below, ranges)?;
            Ok(())
        }
        _ => Err(Stopped::Stray),
    }
}

// The next `count` predicates.
#[cycle(expression_joined_operands_predicate)]
#[tactic(auto, using(crate::proofs::Steps::gather_laws))]
fn operands(
    words: &[u32],
    walk: &mut Walked,
    count: usize,
    left: usize,
    ranges: &[u32],
) -> Result<(), Stopped>
    ensures { with_walk result walk.new
        ≡ gather (predicate_at words.now ranges.now left) count walk.old }
{
    for _ in 0..count {
        predicate(words, walk, left, ranges)?;
    }
    Ok(())
}

// The next two expressions, joined. Where the walk ends in one of them, with 0 for what was not walked.
#[cycle(expression_joined_operands_predicate)]
#[tactic(auto, using(crate::proofs::Steps::joined_laws))]
fn joined(
    words: &[u32],
    walk: &mut Walked,
    how: Join,
    left: usize,
    ranges: &[u32],
) -> Result<Interval, Halt>
    ensures { with_interval result walk.new
        ≡ joined (expression_at words.now ranges.now left) (join_of how) walk.old }
{
    let x = match expression(words, walk, left, ranges) {
        Ok(x) => x,
        Err(halt) => {
            let interval = past(walk, how, halt.interval, Interval { low: 0, high: 0 });
            return Err(Halt { interval, ..halt });
        }
    };
    match expression(words, walk, left, ranges) {
        Ok(y) => Ok(past(walk, how, x, y)),
        Err(halt) => {
            let interval = past(walk, how, x, halt.interval);
            Err(Halt { interval, ..halt })
        }
    }
}

// The expression that comes next, with nodes nested at most `left` deep.
#[cycle(expression_joined_operands_predicate)]
#[tactic(auto, using(crate::proofs::Steps::expression_laws))]
fn expression(
    words: &[u32],
    walk: &mut Walked,
    left: usize,
    ranges: &[u32],
) -> Result<Interval, Halt>
    ensures { with_interval result walk.new ≡ expression_at words.now ranges.now left walk.old }
{
    if left == 0 {
        return Err(Stopped::Deep.into());
    }
    let node = enter(words, walk)?;
    let below = left - 1;
    match node {
        Node::Number(n) => Ok(number(walk, n)),
        Node::Old(k) | Node::New(k) => Ok(variable(walk, ranges, arithmetic::index(k))),
        Node::Add => joined(words, walk, Join::Sum, below, ranges),
        Node::Sub => joined(words, walk, Join::Difference, below, ranges),
        Node::Mul => joined(words, walk, Join::Product, below, ranges),
        Node::If => {
            predicate(words, walk, below, ranges)?;
            joined(words, walk, Join::Either, below, ranges)
        }
        _ => Err(Stopped::Stray.into()),
    }
}

// Walks the predicate whose node words stand from `at` on. `ranges` has the variables' declared ranges as table words:
// LO and HI of variable K are the words 3K and 3K + 1, and word 3K + 2 is for its owner.
#[tactic(auto, using(crate::proofs::Steps::walk_laws))]
pub fn walk(words: &[u32], at: usize, ranges: &[u32]) -> Result<Walked, Ended>
    ensures { result ≡ walk_at words.now ranges.now at }
{
    let mut walk = Walked {
        leaves: false,
        next: at,
    };
    match predicate(words, &mut walk, model::Model::DEPTH, ranges) {
        Ok(()) => Ok(walk),
        Err(why) => Err(Ended { why, walk }),
    }
}
