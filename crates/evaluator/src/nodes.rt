// What one node says, from what its operands say. Each answer has the place after the node's words (`next`), and how
// many nodes are left there (`left`).
#![tactic(auto, using(crate::proofs::ReadBack::read_back))]

ghost use Rattle.std.specs.Prelude.{◌≡◌, false, not, cond, ◌||◌, pos, ◌+ℤ◌, ◌-ℤ◌, ◌*ℤ◌, get_or};
ghost use Rattle.std.specs.Int.Signed.{le_z};
ghost use Rattle.model.specs.Basic.{eq_z};
ghost use Rattle.model.specs.Table.{unbiased};
ghost use Rattle.arithmetic.specs.Cut.{cut};
ghost use Rattle.evaluator.specs.Evaluate.{truth, valued};

// What a predicate says.
#[derive(Clone, Copy, Debug, PartialEq, Eq)]
pub struct Truth {
    pub holds: bool,
    pub next: usize,
    pub left: usize,
}

// An expression's number.
#[derive(Clone, Copy, Debug, PartialEq, Eq)]
pub struct Value {
    pub number: i64,
    pub next: usize,
    pub left: usize,
}

// What a row of operands says: whether all hold, whether any does.
#[derive(Clone, Copy, Debug, PartialEq, Eq)]
pub struct Gathered {
    pub all: bool,
    pub any: bool,
    pub next: usize,
    pub left: usize,
}

// The numbers of two expressions in a row.
#[derive(Clone, Copy, Debug, PartialEq, Eq)]
pub struct Pair {
    pub first: i64,
    pub second: i64,
    pub next: usize,
    pub left: usize,
}

// Where no predicate stands, or no expression.
pub fn no_truth(next: usize, left: usize) -> Truth
    ensures { result ≡ truth false next left }
{
    Truth {
        holds: false,
        next,
        left,
    }
}

pub fn no_value(next: usize, left: usize) -> Value
    ensures { result ≡ valued (pos 0) next left }
{
    Value {
        number: 0,
        next,
        left,
    }
}

// `all` and `any` from their operands.
pub fn all_hold(r: Gathered) -> Truth
    ensures { result ≡ truth r.all r.next r.left }
{
    Truth {
        holds: r.all,
        next: r.next,
        left: r.left,
    }
}

pub fn any_holds(r: Gathered) -> Truth
    ensures { result ≡ truth r.any r.next r.left }
{
    Truth {
        holds: r.any,
        next: r.next,
        left: r.left,
    }
}

// `not`, and `imp` from its two operands.
pub fn negated(p: Truth) -> Truth
    ensures { result ≡ truth (not p.holds) p.next p.left }
{
    Truth {
        holds: !p.holds,
        ..p
    }
}

pub fn implied(p: bool, q: Truth) -> Truth
    ensures { result ≡ truth (not p || q.holds) q.next q.left }
{
    Truth {
        holds: !p | q.holds,
        ..q
    }
}

// `eq` and `le`.
pub fn equal(n: Pair) -> Truth
    ensures { result ≡ truth (eq_z n.first n.second) n.next n.left }
{
    Truth {
        holds: arithmetic::same(n.first, n.second),
        next: n.next,
        left: n.left,
    }
}

pub fn ordered(n: Pair) -> Truth
    ensures { result ≡ truth (le_z n.first n.second) n.next n.left }
{
    Truth {
        holds: arithmetic::at_most(n.first, n.second),
        next: n.next,
        left: n.left,
    }
}

// A number, by its word's argument, and a variable's value.
pub fn constant(argument: u32, next: usize, left: usize) -> Value
    ensures { result ≡ valued (unbiased argument) next left }
{
    Value {
        number: arithmetic::unbias(argument),
        next,
        left,
    }
}

pub fn variable(values: &[i32], k: u32, next: usize, left: usize) -> Value
    ensures { result ≡ valued (get_or values.now k (pos 0)) next left }
{
    Value {
        number: arithmetic::value(values, arithmetic::index(k)),
        next,
        left,
    }
}

// `add`, `sub`, `mul` and `if`.
pub fn added(n: Pair) -> Value
    ensures { result ≡ valued (cut (n.first +ℤ n.second)) n.next n.left }
{
    Value {
        number: arithmetic::sum(n.first, n.second),
        next: n.next,
        left: n.left,
    }
}

pub fn subtracted(n: Pair) -> Value
    ensures { result ≡ valued (cut (n.first -ℤ n.second)) n.next n.left }
{
    Value {
        number: arithmetic::difference(n.first, n.second),
        next: n.next,
        left: n.left,
    }
}

pub fn multiplied(n: Pair) -> Value
    ensures { result ≡ valued (cut (n.first *ℤ n.second)) n.next n.left }
{
    Value {
        number: arithmetic::product(n.first, n.second),
        next: n.next,
        left: n.left,
    }
}

pub fn chosen(test: bool, n: Pair) -> Value
    ensures { result ≡ valued (cond test n.first n.second) n.next n.left }
{
    Value {
        number: arithmetic::choose(test, n.first, n.second),
        next: n.next,
        left: n.left,
    }
}
