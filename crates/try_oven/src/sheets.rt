// The sheets of the cases, as tables: the first words here, by docs/TABLE.md, and zeros behind them.
ghost use Rattle.std.specs.Prelude.{◌≡◌, length};
ghost use Rattle.model.specs.Bounds.{table_words};

use model::Model;

// sheets/oven.txt: door, steam, and v0 the valve. Both share action 1.
pub(crate) const OVEN: [u32; 52] = [
    1, 2, 1, 1000000000, 1000000001, 0, 2, 2, 0, 2, 1, 0, 1, 0, 1, 1, 3, 4, 7, 3147483648, 1, 0, 1,
    1, 1, 0, 2, 0, 1, 1, 0, 1, 0, 2, 0, 1, 0, 3, 4, 8, 3147483648, 0, 2, 0, 3, 4, 8, 3147483649, 3,
    0, 2, 3,
];

// The same with `sync=` in the door sheet.
pub(crate) const ONE_SIDED: [u32; 52] = [
    1, 2, 1, 1000000000, 1000000001, 0, 2, 0, 0, 2, 1, 0, 1, 0, 1, 1, 3, 4, 7, 3147483648, 1, 0, 1,
    1, 1, 0, 2, 0, 1, 1, 0, 1, 0, 2, 0, 1, 0, 3, 4, 8, 3147483648, 0, 2, 0, 3, 4, 8, 3147483649, 3,
    0, 2, 3,
];

// The oven and a lamp sheet that shares action 1 too and goes from location 0 to 1 under it: `par par a0 a1 a2`.
pub(crate) const LAMP: [u32; 71] = [
    1, 2, 1, 1000000000, 1000000001, 0, 3, 2, 0, 2, 1, 0, 1, 0, 1, 1, 3, 4, 7, 3147483648, 1, 0, 1,
    1, 1, 0, 2, 0, 1, 1, 0, 1, 0, 2, 0, 1, 0, 3, 4, 8, 3147483648, 0, 2, 0, 3, 4, 8, 3147483649, 2,
    0, 2, 1, 0, 1, 0, 1, 1, 1, 0, 1, 0, 1, 1, 1, 0, 5, 0, 0, 2, 3, 4,
];

// No variables; two sheets that each go from 0 to 1 under action 1 and do not share it: `syn 1 par a0 a1`.
pub(crate) const PAIR: [u32; 45] = [
    1, 1, 0, 2, 0, 0, 2, 1, 0, 1, 0, 1, 1, 1, 0, 1, 0, 1, 1, 1, 0, 0, 0, 2, 1, 0, 1, 0, 1, 1, 1, 0,
    1, 0, 1, 1, 1, 0, 4, 1, 2, 0, 0, 2, 3,
];

// The table that begins with these words.
pub(crate) fn table(words: &[u32]) -> [u32; Model::WORDS]
    ensures { table_words ≡ length result }
{
    judge_rows::padded(words, 0)
}
