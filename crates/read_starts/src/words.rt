// The words of all P of a composition, in order: of each the number of its nodes, and the nodes.
ghost use Rattle.std.specs.Prelude.{◌≡◌, length};
ghost use Rattle.table_append.specs.Append.{next_place, put};
ghost use Rattle.read_predicate.specs.Scratch.{Scratch};
ghost use Rattle.read_starts.specs.Words.{counted_words, start_words, starts_words};

use crate::parts;
use model::Model;

// The place itself, or the table's end.
fn place(at: usize) -> usize
    ensures { result ≡ next_place at 0 }
{
    at.min(Model::WORDS)
}

// So many nodes, with their number; more than a sheet can have are left out.
fn append_counted(words: &mut [u32; Model::WORDS], at: usize, nodes: &[u32], n: usize) -> usize
    ensures { (result ≡ next_place at (length (counted_words n nodes.now)))
        × (words.new ≡ put at (counted_words n nodes.now) words.old) }
{
    if Model::NODES < n {
        return place(at);
    }
    let next = table_append::append_one(words, at, n as u32);
    table_append::append(words, next, nodes, n)
}

// One P; what is none has no words.
fn append_one(p: &[u8], words: &mut [u32; Model::WORDS], at: usize, nodes: &mut [u32]) -> usize
    ensures value { (result ≡ next_place at (length (start_words (length nodes.old) p.now)))
        × (words.new ≡ put at (start_words (length nodes.old) p.now)
        words.old) }
    ensures scratch { Scratch nodes.old nodes.new }
{
    match read_words::read(p, nodes) {
        Ok(n) => append_counted(words, at, nodes, n),
        Err(_) => place(at),
    }
}

pub fn append(part: &[u8], words: &mut [u32; Model::WORDS], at: usize, nodes: &mut [u32]) -> usize
    ensures value { (result ≡ next_place at (length (starts_words (length nodes.old) part.now)))
        × (words.new ≡ put at (starts_words (length nodes.old) part.now)
        words.old) }
    ensures scratch { Scratch nodes.old nodes.new }
{
    let mut end = place(at);
    let mut from = 0;
    while let Some(start) = read_extent::next(part, from) {
        let next = read_extent::after(part, start);
        let p = parts::between(part, start, next);
        end = append_one(p, words, end, nodes);
        from = next;
    }
    end
}
