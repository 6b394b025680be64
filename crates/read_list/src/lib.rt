// A list of numbers with commas: whether they are sound (row 3), rise (row 5), and all lie below a bound, and what is
// left of a set without them.
#![tactic(auto)]

ghost use Rattle.std.specs.Prelude.{◌≡◌};
ghost use Rattle.format.specs.Bytes.{parts, comma};
ghost use Rattle.format.specs.Rows.{list_items};
ghost use Rattle.read_list.specs.Items.{with_item, no_items, items_of};

// What is asked of a list: the greatest number that there is, the least that it may begin with, the bound, and the set
// that its numbers are taken out of.
#[derive(Clone, Copy, Debug, PartialEq, Eq)]
pub struct Asked {
    pub most: u32,
    pub least: usize,
    pub below: usize,
    pub all: u64,
}

// Of a list of sound numbers: whether they rise, whether one is not below the bound, and what is left of the set.
#[derive(Clone, Copy, Debug, PartialEq, Eq)]
pub struct Listed {
    pub rising: bool,
    pub outside: bool,
    pub rest: u64,
}

// Of the numbers so far: the least that may follow, whether they rise, whether one is not below the bound, and what is
// left of the set.
#[derive(Clone, Copy, Debug, PartialEq, Eq)]
pub struct Items {
    pub least: usize,
    pub rising: bool,
    pub outside: bool,
    pub rest: u64,
}

#[tactic(auto, using(crate::proofs::CodeLaws::item_laws))]
fn no_items(asked: Asked) -> Items
    ensures { result ≡ no_items asked }
{
    let least = asked.least;
    let rest = asked.all;
    Items {
        least,
        rising: true,
        outside: false,
        rest,
    }
}

#[tactic(auto, using(crate::proofs::CodeLaws::item_laws))]
fn with_item(asked: Asked, seen: Items, k: u32) -> Items
    ensures { result ≡ with_item asked seen k }
{
    let n = arithmetic::index(k);
    let below = asked.below;
    Items {
        least: n + 1,
        rising: seen.rising & (seen.least <= n),
        outside: seen.outside | (below <= n),
        rest: table_writes::clear(seen.rest, k),
    }
}

// A list that is not empty; nothing where a number is not sound.
pub fn filled(part: &[u8], asked: Asked) -> Option<Listed>
    ensures { result ≡ items_of asked (parts comma part.now) }
{
    let mut seen = no_items(asked);
    for item in part.split(|&b| b == b',') {
        let k = text_numbers::natural(item, asked.most)?;
        seen = with_item(asked, seen, k);
    }
    Some(Listed {
        rising: seen.rising,
        outside: seen.outside,
        rest: seen.rest,
    })
}

// A list that may be empty.
#[tactic(auto, using(crate::proofs::CodeLaws::read_laws))]
pub fn read(part: &[u8], asked: Asked) -> Option<Listed>
    ensures { result ≡ items_of asked (list_items part.now) }
{
    if part.len() == 0 {
        let rest = asked.all;
        return Some(Listed {
            rising: true,
            outside: false,
            rest,
        });
    }
    filled(part, asked)
}
