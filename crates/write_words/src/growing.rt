// A text that is being written, into a buffer that is lent.
#![tactic(auto, using(crate::proofs::GrowingLaws::growing_laws))]

ghost use Rattle.format.specs.Number as N;
ghost use Rattle.model.specs.Table.{unbiased};
ghost use Rattle.write_words.specs.Growing.{Grew, between, part_text};

use model::Model;

// The bytes before `end` are the text so far; no end where there was no room for all of it.
#[derive(Drop)]
pub struct Text<'a> {
    pub bytes: &'a mut [u8],
    pub end: Option<usize>,
}

impl Text<'_> {
    pub(crate) fn put(&mut self, s: &[u8])
        ensures { Grew s.now self.old self.new }
    {
        let Some(at) = self.end else {
            return;
        };
        self.end = text_bytes::copy(s, self.bytes, at);
    }

    pub(crate) fn number(&mut self, n: u32)
        ensures { Grew (N.decimal n) self.old self.new }
    {
        let Some(at) = self.end else {
            return;
        };
        self.end = text_bytes::decimal(n, self.bytes, at);
    }

    // What stands before an item, unless it is the first.
    pub(crate) fn apart(&mut self, mark: &[u8], first: bool)
        ensures { Grew (between first mark.now) self.old self.new }
    {
        if !first {
            self.put(mark);
        }
    }

    // The number that a biased word stands for.
    pub(crate) fn biased(&mut self, word: u32)
        ensures { Grew (N.signed (unbiased word)) self.old self.new }
    {
        if word < Model::BIAS {
            self.put(b"-");
            self.number(Model::BIAS - word);
        } else {
            self.number(word - Model::BIAS);
        }
    }

    // Words stand in one row, and a part of it is put: a literal for each word would be checked much longer. Where the
    // row has no such part, nothing is put.
    pub(crate) fn put_part(&mut self, row: &[u8], p: Part)
        ensures { Grew (part_text row.now p) self.old self.new }
    {
        if let Some(part) = row.get(p.from..p.to) {
            self.put(part);
        }
    }
}

// A part of a row of bytes.
#[derive(Clone, Copy, Debug, PartialEq, Eq)]
pub struct Part {
    pub from: usize,
    pub to: usize,
}
