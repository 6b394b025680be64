// One line: its key, its value and a line feed.
#![tactic(auto, using(crate::proofs::LineLaws::line_laws))]

ghost use Rattle.std.specs.Prelude.{◌≡◌};
ghost use Rattle.write_words.specs.Growing.{Grew};
ghost use Rattle.write_words.specs.Text.{range_text, field_text, edge_text, starts_behind, tree_text};
ghost use Rattle.write_words.specs.Text.{value_of, key_part, key_text, line_of, size_of};

use crate::growing::{Part, Text};
use crate::predicate::{self};
use crate::read::{self};
use line_order::Key;
use table_places::word32;

// Both ends of a range.
fn range(ws: &[u32], out: &mut Text)
    ensures { Grew (range_text ws.now) out.old out.new }
{
    out.biased(word32(ws, 0));
    out.put(b",");
    out.biased(word32(ws, 1));
}

// A number and a comma.
#[tactic(auto, using(crate::proofs::GrowingLaws::grew_then), unfolding(crate::specs::Text::field_text))]
fn field(n: u32, out: &mut Text)
    ensures { Grew (field_text n) out.old out.new }
{
    out.number(n);
    out.put(b",");
}

// Where an edge starts, its action, where it ends, and its update.
#[tactic(auto, using(crate::proofs::GrowingLaws::grew_then), unfolding(crate::specs::Text::edge_text))]
fn edge(ws: &[u32], out: &mut Text)
    ensures { Grew (edge_text ws.now) out.old out.new }
{
    field(word32(ws, 0), out);
    field(word32(ws, 1), out);
    field(word32(ws, 2), out);
    predicate::counted(read::rest(ws, 3), out);
}

// The tree's P's: behind its nodes and their number.
fn starts(ws: &[u32]) -> &[u32]
    ensures { result.now ≡ starts_behind ws.now }
{
    let number = table_tree::skip(ws, table_places::nodes_at(ws, 0));
    read::rest(ws, table_places::first_start(ws, number))
}

// The composition: its count of nodes, the nodes, and the P's of its `ini`.
fn tree(ws: &[u32], out: &mut Text)
    ensures { Grew (tree_text ws.now) out.old out.new }
{
    let n = read::count(ws, 0);
    crate::tree::nodes(read::rest(ws, 1), n, starts(ws), out);
}

// What a line's value is, by its key.
#[tactic(auto, using(crate::proofs::GrowingLaws::grew_none), unfolding(crate::specs::Text::value_of))]
fn value(key: Key, ws: &[u32], out: &mut Text)
    ensures { Grew (value_of key ws.now) out.old out.new }
{
    match key {
        Key::Format | Key::Actions | Key::Variables | Key::Automata | Key::Locations | Key::Edges =>
            out.number(word32(ws, 0)),
        Key::Variable => range(ws, out),
        Key::Sync => crate::tree::set(word32(ws, 0), word32(ws, 1), out),
        Key::Init | Key::Inv => predicate::counted(ws, out),
        Key::Edge => edge(ws, out),
        Key::Compose => tree(ws, out),
        Key::End => {}
    }
}

// Where a key stands among all keys.
#[tactic(auto, unfolding(crate::specs::Text::key_part))]
fn among_keys(key: Key) -> Part
    ensures { result ≡ key_part key }
{
    match key {
        Key::Format => Part { from: 0, to: 7 },
        Key::Actions => Part { from: 7, to: 15 },
        Key::Variables => Part { from: 15, to: 25 },
        Key::Variable => Part { from: 25, to: 34 },
        Key::Automata => Part { from: 34, to: 43 },
        Key::Sync => Part { from: 43, to: 48 },
        Key::Locations => Part { from: 48, to: 58 },
        Key::Init => Part { from: 58, to: 63 },
        Key::Inv => Part { from: 63, to: 67 },
        Key::Edges => Part { from: 67, to: 73 },
        Key::Edge => Part { from: 73, to: 78 },
        Key::Compose => Part { from: 78, to: 86 },
        Key::End => Part { from: 86, to: 86 },
    }
}

// A key, the equals sign with it. All keys stand in one row, for a literal in each arm would be checked much longer.
fn name(key: Key, out: &mut Text)
    ensures { Grew (key_text key) out.old out.new }
{
    out.put_part(
        b"format=actions=variables=variable=automata=sync=locations=init=inv=edges=edge=compose=",
        among_keys(key),
    );
}

// The line with this key whose words these begin with.
#[tactic(auto, using(crate::proofs::GrowingLaws::grew_then), unfolding(crate::specs::Text::line_of))]
pub(crate) fn line(key: Key, ws: &[u32], out: &mut Text)
    ensures { Grew (line_of key ws.now) out.old out.new }
{
    name(key, out);
    value(key, ws, out);
    out.put(b"\n");
}

// How many words it has; none follows the composition.
#[tactic(auto, unfolding(crate::specs::Text::size_of))]
pub(crate) fn size(key: Key, ws: &[u32]) -> usize
    ensures { result ≡ size_of key ws.now }
{
    match key {
        Key::Format | Key::Actions | Key::Variables | Key::Automata | Key::Locations | Key::Edges =>
            1,
        Key::Variable => 3,
        Key::Sync => 2,
        Key::Init | Key::Inv => 1 + read::count(ws, 0),
        Key::Edge => 4 + read::count(ws, 3),
        Key::Compose | Key::End => 0,
    }
}
