// Finding a byte.
ghost use Rattle.std.specs.Prelude.{◌≡◌, ◌≤◌, length};
ghost use Rattle.text_bytes.specs.Find.{first_from};

// The place of the first such byte from `at` on, or the length.
pub fn find(s: &[u8], at: usize, byte: u8) -> usize
    ensures { (result ≡ first_from s.now at byte) × (result ≤ length s.now) }
{
    if s.len() < at {
        return s.len();
    }
    match s[at..].iter().position(|&b| b == byte) {
        Some(i) => at + i,
        None => s.len(),
    }
}
