// The line `sync=LIST`, which begins an automaton with its synchronising set.
ghost use Rattle.std.specs.Prelude.{◌≡◌};
ghost use Rattle.read_composition_line.specs.Sync.{sync_read, sync_after};

use line_order::Counts;
use model::{Model, Row};
use read_form::{Line, LineRead};
use table_append::append_one;

// Rows 2, 3 and 5; then the two words of the set.
pub fn sync(
    line: Line<'_>,
    counts: Counts,
    words: &mut [u32; Model::WORDS],
    at: usize,
) -> Result<LineRead, Row>
    ensures { (result ≡ sync_read line.entry.bytes.now line.entry.ended counts at)
        × (words.new ≡ sync_after line.entry.bytes.now line.entry.ended counts words.old at) }
{
    if line.misformed(b"sync=", 0) {
        return Err(Row(2));
    }
    let a = counts.actions;
    let list = read_composition::sync_list(line.value(b"sync="), line_order::capped(a));
    if !list.sound {
        return Err(Row(3));
    }
    if !list.rising {
        return Err(Row(5));
    }
    let second = append_one(words, at, list.low);
    let next = append_one(words, second, list.high);
    Ok(LineRead {
        number: 0,
        nodes: 0,
        next,
    })
}
