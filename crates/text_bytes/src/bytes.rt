// Bytes: tests, comparing and counting.
ghost use Rattle.std.specs.Prelude.{◌≡◌, ◌||◌, length, eqb, ◌≤◌};
ghost use Rattle.model.specs.Basic as Basic;
ghost use Rattle.format.specs.Bytes as Bytes;
ghost use Rattle.format.specs.Number as Number;
ghost use Rattle.format.specs.Rows as Rows;
ghost use Rattle.text_bytes.specs.Find.{tally, count_of};

fn shown(b: u8) -> bool
    ensures { result ≡ Rows.printable b }
{
    (b' ' <= b) & (b <= b'~')
}

pub fn digit(b: u8) -> bool
    ensures { result ≡ Number.digit b }
{
    (b'0' <= b) & (b <= b'9')
}

// Does a token that begins so begin like a number?
pub fn starts_number(b: u8) -> bool
    ensures { result ≡ (Number.digit b || eqb b Bytes.minus) }
{
    digit(b) | (b == b'-')
}

// Is every byte printable?
pub fn printable(s: &[u8]) -> bool
    ensures { result ≡ Basic.every Rows.printable s.now }
{
    s.iter().all(|&b| shown(b))
}

// Does `s` begin with `key`?
pub fn begins(s: &[u8], key: &[u8]) -> bool
    ensures { result ≡ Bytes.begins key.now s.now }
{
    s.starts_with(key)
}

pub fn same(a: &[u8], b: &[u8]) -> bool
    ensures { result ≡ Basic.same a.now b.now }
{
    a == b
}

// How many such bytes there are: the parts between them are one more.
pub fn count(s: &[u8], byte: u8) -> usize
    ensures { (result ≡ count_of byte s.now) × (result ≤ length s.now) }
{
    s.iter().filter(|&&b| b == byte).count()
}
