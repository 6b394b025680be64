// The table that was read, put into the lent one.
ghost use Rattle.std.specs.Prelude.{◌≡◌};
ghost use Rattle.reader.specs.Read.{stored};

// The words into the table's first places, if it has as many; the rest keeps its contents.
pub(crate) fn store(words: &[u32], table: &mut [u32])
    ensures { table.new ≡ stored words.now table.old }
{
    if table.len() < words.len() {
        return;
    }
    table[..words.len()].copy_from_slice(words);
}
