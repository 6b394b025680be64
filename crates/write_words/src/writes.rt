// The line `writes=` behind an edge, and an entry: a line with the line behind it, if it has one.
#![tactic(auto, using(crate::proofs::WritesLaws::writes_laws))]

ghost use Rattle.write_words.specs.Growing.{Grew};
ghost use Rattle.write_words.specs.Text.{writes_text, behind_of, entry_of};

use crate::growing::Text;
use crate::line::{self};
use crate::owner::{self};
use crate::read::{self};
use line_order::Due;

// The variables whose new value the update names, by the edge's words.
fn list(ws: &[u32], out: &mut Text)
    ensures { Grew (writes_text ws.now) out.old out.new }
{
    let n = read::count(ws, 3);
    let set = table_writes::written(ws, 4, n);
    out.put(b"writes=");
    crate::tree::members(set, out);
    out.put(b"\n");
}

// The owner of a variable, or what an edge writes, in the formats that say it.
fn behind(due: Due, ws: &[u32], out: &mut Text)
    ensures { Grew (behind_of due ws.now) out.old out.new }
{
    if due.owned() {
        owner::line(ws, out);
    } else if due.listed() {
        list(ws, out);
    }
}

// The line that is due, whose words these begin with, and the line behind it.
#[tactic(auto, using(crate::proofs::GrowingLaws::grew_then), unfolding(crate::specs::Text::entry_of))]
pub(crate) fn entry(due: Due, ws: &[u32], out: &mut Text)
    ensures { Grew (entry_of due ws.now) out.old out.new }
{
    line::line(due.key, ws, out);
    behind(due, ws, out);
}
