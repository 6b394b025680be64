// Numbers: one spelling each, and in a range.
ghost use Rattle.std.specs.Prelude.{◌≡◌, pos};
ghost use Rattle.format.specs.Number as N;
ghost use Rattle.text_numbers.specs.Number.{up_to, kept, negated, natural_in, integer_in};

use text_bytes::digit;

// The number that the digits of `s` make, if it is at most `high`.
fn digits(s: &[u8], high: u32) -> Option<u32>
    ensures { result ≡ up_to high (N.digits 0 s.now) }
{
    let mut made: u32 = 0;
    for &b in s {
        if !digit(b) {
            return None;
        }
        made = made.checked_mul(10)?.checked_add(u32::from(b - b'0'))?;
        if high < made {
            return None;
        }
    }
    Some(made)
}

// A number with no sign: at least one digit, several do not start with 0.
#[tactic(auto, using(crate::proofs::NumberLaws::natural_laws))]
pub fn natural(s: &[u8], high: u32) -> Option<u32>
    ensures { result ≡ natural_in s.now high }
{
    match s {
        [] => None,
        [b'0'] => Some(0),
        [b'0', ..] => None,
        _ => digits(s, high),
    }
}

// z, if it is from low to high.
fn keep(z: i64, low: i32, high: i32) -> Option<i32>
    ensures { result ≡ kept low high z }
{
    let z = i32::try_from(z).ok()?;
    if z < low || high < z {
        return None;
    }
    Some(z)
}

// What `-n` says: -0 is no number.
fn negate(n: u32, low: i32, high: i32) -> Option<i32>
    ensures { result ≡ negated low high n }
{
    if 0 < n {
        return keep(-i64::from(n), low, high);
    }
    None
}

// What `n` says.
fn plain(n: u32, low: i32, high: i32) -> Option<i32>
    ensures { result ≡ kept low high (pos n) }
{
    keep(i64::from(n), low, high)
}

// A number from low to high. What passes 32 bits is out of every range.
#[tactic(auto, using(crate::proofs::NumberLaws::integer_laws))]
pub fn integer(s: &[u8], low: i32, high: i32) -> Option<i32>
    ensures { result ≡ integer_in s.now low high }
{
    if let [b'-', rest @ ..] = s {
        negate(natural(rest, u32::MAX)?, low, high)
    } else {
        plain(natural(s, u32::MAX)?, low, high)
    }
}
