// Writing bytes and numbers into a slice. What does not fit is not begun.
ghost use Rattle.std.specs.Prelude.{◌≡◌, ◌+◌, ◌%◌, nat_abs};
ghost use Rattle.format.specs.Number as N;
ghost use Rattle.text_bytes.specs.Write.{Wrote, Spells};

// The bytes of `s`, from `at` on.
pub fn copy(s: &[u8], out: &mut [u8], at: usize) -> Option<usize>
    ensures { Wrote s.now at out.old out.new result }
{
    if out.len() < at {
        return None;
    }
    if out.len() - at < s.len() {
        return None;
    }
    let end = at + s.len();
    out[at..end].copy_from_slice(s);
    Some(end)
}

// A number's bytes: the last of the eleven, from a place on.
#[derive(Clone, Copy, Debug, PartialEq, Eq)]
pub struct Spelled {
    pub bytes: [u8; 11],
    pub from: usize,
}

fn last_digit(n: u32) -> u8
    ensures { result ≡ 48 + n % 10 }
{
    b'0' + (n % 10) as u8
}

// The digits of `n`, from the right; at most ten.
fn spell(n: u32) -> Spelled
    ensures { Spells 1 (N.decimal n) result }
{
    let mut bytes = [b'0'; 11];
    let mut i: usize = 11;
    let mut rest = n;
    // Stays a `while`: the number itself says how many digits there are, and they come from the last on.
    while 10 <= rest {
        i -= 1;
        bytes[i] = last_digit(rest);
        rest = rest / 10;
    }
    i -= 1;
    bytes[i] = last_digit(rest);
    Spelled { bytes, from: i }
}

fn magnitude(z: i32) -> u32
    ensures { result ≡ nat_abs z }
{
    z.unsigned_abs()
}

fn spell_signed(z: i32) -> Spelled
    ensures { Spells 0 (N.signed z) result }
{
    let t = spell(magnitude(z));
    if 0 <= z {
        return t;
    }
    let mut bytes = t.bytes;
    let from = t.from - 1;
    bytes[from] = b'-';
    Spelled { bytes, from }
}

// The one spelling of `n`, from `at` on.
#[tactic(auto, using(crate::proofs::WriteLaws::write_spelled))]
pub fn decimal(n: u32, out: &mut [u8], at: usize) -> Option<usize>
    ensures { Wrote (N.decimal n) at out.old out.new result }
{
    let t = spell(n);
    copy(&t.bytes[t.from..], out, at)
}

// The same with its sign.
#[tactic(auto, using(crate::proofs::WriteLaws::write_signed))]
pub fn signed(z: i32, out: &mut [u8], at: usize) -> Option<usize>
    ensures { Wrote (N.signed z) at out.old out.new result }
{
    let t = spell_signed(z);
    copy(&t.bytes[t.from..], out, at)
}
