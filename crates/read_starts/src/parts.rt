// The bytes of one P.
ghost use Rattle.std.specs.Prelude.{◌≡◌, ◌-◌, take, drop};

// What stands from a place up to the byte before another; past the end nothing.
pub fn between(part: &[u8], at: usize, next: usize) -> &[u8]
    ensures { result.now ≡ take (next - 1 - at) (drop at part.now) }
{
    let end = next.saturating_sub(1).min(part.len());
    part.get(at..end).unwrap_or(&[])
}
