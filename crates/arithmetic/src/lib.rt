// Numbers of expressions: steps on i64 that stop at the ends of its range, and tests. On checked expressions, which
// keep to the span of row 10, no step comes that far (proofs/Intervals.antt).
#![tactic(auto)]

ghost use Rattle.std.specs.Prelude.{◌≡◌, cond, ◌&&◌, ◌+◌, leb, pos, ◌+ℤ◌, ◌-ℤ◌, ◌*ℤ◌, get_or};
ghost use Rattle.std.specs.Int.Signed.{le_z};
ghost use Rattle.model.specs.Basic.{eq_z};
ghost use Rattle.model.specs.Bounds.{least_value, greatest_value};
ghost use Rattle.model.specs.Predicate.{least, greatest};
ghost use Rattle.model.specs.Table.{unbiased};
ghost use Rattle.arithmetic.specs.Cut.{cut};

use model::Model;

pub fn index(x: u32) -> usize
    ensures { result ≡ x }
{
    x as usize
}

// Is the sum no higher than `most`?
pub fn fits(x: usize, y: usize, most: usize) -> bool
    ensures { result ≡ leb (x + y) most }
{
    y <= most && x <= most - y
}

pub fn choose(test: bool, a: i64, b: i64) -> i64
    ensures { result ≡ cond test a b }
{
    if test { a } else { b }
}

pub fn same(a: i64, b: i64) -> bool
    ensures { result ≡ eq_z a b }
{
    a == b
}

pub fn at_most(a: i64, b: i64) -> bool
    ensures { result ≡ le_z a b }
{
    a <= b
}

// Variable k's value; there is none past the end, and the definitions read 0 there.
pub fn variable(values: &[i32], k: usize) -> i32
    ensures { result ≡ get_or values.now k (pos 0) }
{
    values.get(k).copied().unwrap_or(0)
}

// The same as an expression's number.
pub fn value(values: &[i32], k: usize) -> i64
    ensures { result ≡ get_or values.now k (pos 0) }
{
    i64::from(variable(values, k))
}

// The number that a biased table word stands for.
pub fn unbias(word: u32) -> i64
    ensures { result ≡ unbiased word }
{
    i64::from(word) - i64::from(Model::BIAS)
}

// The sum; past an end of the range, that end.
pub fn sum(a: i64, b: i64) -> i64
    ensures { result ≡ cut (a +ℤ b) }
{
    a.saturating_add(b)
}

pub fn difference(a: i64, b: i64) -> i64
    ensures { result ≡ cut (a -ℤ b) }
{
    a.saturating_sub(b)
}

pub fn product(a: i64, b: i64) -> i64
    ensures { result ≡ cut (a *ℤ b) }
{
    a.saturating_mul(b)
}

pub fn lesser(a: i64, b: i64) -> i64
    ensures { result ≡ least a b }
{
    a.min(b)
}

pub fn greater(a: i64, b: i64) -> i64
    ensures { result ≡ greatest a b }
{
    a.max(b)
}

// Whether the interval from `low` to `high` stays within the span of row 10.
pub fn in_span(low: i64, high: i64) -> bool
    ensures { result ≡ (le_z least_value low && le_z high greatest_value) }
{
    (Model::LEAST_VALUE <= low) & (high <= Model::GREATEST_VALUE)
}
