// The line `owner=` behind a variable.
#![tactic(auto, using(crate::proofs::OwnerLaws::owner_laws))]

ghost use Rattle.model.specs.Table.{owner_from};
ghost use Rattle.format.specs.Spelling.{text_of_owner};
ghost use Rattle.write_words.specs.Growing.{Grew};
ghost use Rattle.write_words.specs.Text.{owner_text};

use crate::growing::Text;
use table_places::word32;

// Who an owner's word stands for: 0 is nobody, K + 1 is automaton K.
fn who(word: u32, out: &mut Text)
    ensures { Grew (text_of_owner (owner_from word)) out.old out.new }
{
    if word == 0 {
        out.put(b"none");
    } else {
        out.number(word - 1);
    }
}

// The owner of a variable, by the variable's words: the third is the owner's.
pub(crate) fn line(ws: &[u32], out: &mut Text)
    ensures { Grew (owner_text ws.now) out.old out.new }
{
    out.put(b"owner=");
    who(word32(ws, 2), out);
    out.put(b"\n");
}
