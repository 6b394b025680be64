// The form of a line: what stands after its key, its fields, and row 2: is this the line that is due, with its fields,
// in printable bytes, up to an LF? And what a line that was read says.
#![tactic(auto)]

ghost use Rattle.std.specs.Prelude.{◌≡◌};
ghost use Rattle.read_form.specs.Form.{value_after, field_in, misparted, misformed};

// What a sound line says: its number if it counts something or is the format's, and of an edge the set of the variables
// whose new value it does not mention; the nodes of its predicate; and the place of the next word.
#[derive(Clone, Copy, Debug, PartialEq, Eq)]
pub struct LineRead {
    pub number: usize,
    pub nodes: usize,
    pub next: usize,
}

// A line's bytes without its LF, and whether an LF ended it.
#[derive(Clone, Copy, Debug, PartialEq, Eq)]
pub struct Line<'a> {
    pub bytes: &'a [u8],
    pub ended: bool,
}

impl<'a> Line<'a> {
    // What stands after the key.
    pub fn value(self, name: &[u8]) -> &'a [u8]
        ensures { result.now ≡ value_after name.now self.entry.bytes.now }
    {
        self.bytes.get(name.len()..).unwrap_or(&[])
    }

    // Row 2: the line has another key, another number of fields, a byte that is not printable, or no LF. A line
    // of another key is not read further.
    #[tactic(auto, using(crate::proofs::FormLaws::form_laws))]
    pub fn misformed(self, name: &[u8], fields: usize) -> bool
        ensures { result ≡ misformed name.now fields self.entry.bytes.now self.entry.ended }
    {
        if !text_bytes::begins(self.bytes, name) {
            return true;
        }
        if misparted(self.value(name), fields) {
            return true;
        }
        !text_bytes::printable(self.bytes) | !self.ended
    }
}

// Commas part the value into another number of fields; where `fields` is 0 they part nothing.
#[tactic(auto, using(crate::proofs::FormLaws::misparted_laws))]
fn misparted(value: &[u8], fields: usize) -> bool
    ensures { result ≡ misparted fields value.now }
{
    fields != 0 && text_bytes::count(value, b',') != fields - 1
}

// The field with this number, of those that commas part; empty where there are fewer.
pub fn field(value: &[u8], number: usize) -> &[u8]
    ensures { result.now ≡ field_in number value.now }
{
    value.split(|&b| b == b',').nth(number).unwrap_or(&[])
}
