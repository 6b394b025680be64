// Better weights: more for a variable that no chosen edge mentions, less for one that several do. Any weights give a
// bound, so nothing is promised of these.
ghost use Rattle.std.specs.Prelude.{◌≡◌, ◌≤◌, ◌<◌, length};

const MOST: u16 = 60000;

fn more(x: u16, step: u16) -> u16
    requires { step ≤ 1000 }
{
    if MOST < x { x } else { x + step }
}

// A step less, if the test says so.
fn less(x: u16, step: u16, test: bool) -> u16 {
    if test { x.saturating_sub(step) } else { x }
}

// All of them with a step more.
pub(crate) fn heavier(weights: &[u16; 64], step: u16) -> [u16; 64]
    requires step_bound { step ≤ 1000 }
    ensures { length result ≡ 64 }
{
    let mut next = *weights;
    for w in next.iter_mut() {
        *w = more(*w, step);
    }
    next
}

// Those of a set with a step less.
pub(crate) fn lighten(weights: &mut [u16; 64], set: u64, step: u16)
    ensures { length weights.new ≡ 64 }
{
    let mut rest = set;
    for w in weights.iter_mut() {
        *w = less(*w, step, rest % 2 == 1);
        rest /= 2;
    }
}
