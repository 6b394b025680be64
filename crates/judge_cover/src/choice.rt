// Which uncovered variable the search branches on: one that as few edges as can be mention. Any uncovered one would do,
// so all that is promised of the choice is that.
ghost use Rattle.std.specs.Prelude.{◌≡◌, true, ◌≤◌, ◌<◌, length};
ghost use Rattle.model.specs.Table.{bit};
ghost use Rattle.judge_cover.specs.Steps.{PartOf};

// For each variable how many edges mention it: bit K of the six sets from `ones` up to `more` is that number for
// variable K, less 64 as often as it came to 64; `over` has the variables for which it did.
#[derive(Clone, Copy, Debug, Default, PartialEq, Eq)]
pub struct Tally {
    pub ones: u64,
    pub twos: u64,
    pub fours: u64,
    pub eights: u64,
    pub sixteens: u64,
    pub more: u64,
    pub over: u64,
}

// With an edge more. MANY says whether a number may come to 64.
fn with<const MANY: bool>(t: Tally, named: u64) -> Tally {
    let two = t.ones & named;
    let four = t.twos & two;
    let eight = t.fours & four;
    let sixteen = t.eights & eight;
    let more = t.sixteens & sixteen;
    Tally {
        ones: t.ones ^ named,
        twos: t.twos ^ two,
        fours: t.fours ^ four,
        eights: t.eights ^ eight,
        sixteens: t.sixteens ^ sixteen,
        more: t.more ^ more,
        over: if MANY { t.over | t.more & more } else { t.over },
    }
}

fn count_all<const MANY: bool>(masks: &[u64], u: u64) -> Tally {
    let mut t = Tally::default();
    for mask in masks {
        t = with::<MANY>(t, u & !*mask);
    }
    t
}

// Counts the edges up to the end of the last group. Where other edges stand between the groups they are counted too,
// which may make the choice a worse one.
fn count(masks: &[u64], to: usize, u: u64) -> Tally
    requires { to ≤ length masks.now }
{
    if to < 64 {
        count_all::<false>(&masks[..to], u)
    } else {
        count_all::<true>(&masks[..to], u)
    }
}

// Those of a set that are not in `more`, unless that is none.
#[tactic(auto, using(crate::proofs::CodeLaws::part_laws))]
fn fewer(set: u64, more: u64) -> u64
    ensures { PartOf result set }
{
    let rest = set & !more;
    if rest == 0 { set } else { rest }
}

#[tactic(auto, using(crate::proofs::CodeLaws::part_laws))]
fn rarest(u: u64, t: Tally) -> u64
    ensures { PartOf result u }
{
    let a = fewer(u, t.over);
    let b = fewer(a, t.more);
    let c = fewer(b, t.sixteens);
    let d = fewer(c, t.eights);
    let e = fewer(d, t.fours);
    let f = fewer(e, t.twos);
    fewer(f, t.ones)
}

// The first variable of a set; 64 if it has none.
#[tactic(auto, using(crate::proofs::CodeLaws::first_is))]
fn first(set: u64) -> u32
    ensures { 0 < set → bit set result ≡ true }
{
    set.trailing_zeros()
}

#[tactic(auto, using(crate::proofs::CodeLaws::chosen))]
pub(crate) fn choose(masks: &[u64], to: usize, u: u64) -> u32
    requires { to ≤ length masks.now }
    ensures { 0 < u → bit u result ≡ true }
{
    first(rarest(u, count(masks, to, u)))
}
