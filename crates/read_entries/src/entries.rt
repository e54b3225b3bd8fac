// Records of symbols, made from their tokens, and their numbers in the table.
ghost use Rattle.std.specs.Prelude.{◌+◌, ◌<◌, ◌≤◌, ◌≡◌, get_or};
ghost use Rattle.grammar_table.specs.steps.Rows.{seek, kept, Noted};
ghost use Rattle.read_entries.specs.steps.Entries.{symbol_at, symbol_row, lake_of};
ghost use Rattle.grammar_table.specs.Table.{symbol_key, symbol_words, symbols_at, words_from};

use base_words::put;
use grammar_table::records::symbols;
use grammar_table::{
    KIND, NAME, NAME_LENGTH, SYMBOL_KEY, SYMBOL_WORDS, SYMBOLS_AT, find, least, note,
};
use read_tokens::Kind;

// The word of a table that counts its symbols.
const COUNT: usize = 0;

// The byte at a place; 0 behind the text's end. `base_words::word` reads words of 32 bits, and a text has bytes.
fn byte(text: &[u8], at: usize) -> usize
    ensures { (result ≡ get_or text.now at 0) × (result < 256) }
{
    text.get(at).map_or(0, |b| usize::from(*b))
}

fn lake_of(kind: Kind) -> usize
    ensures { (result ≡ lake_of kind) × (result ≤ 1) }
{
    usize::from(kind == Kind::Lake)
}

// The record of a symbol whose n name bytes stand from `from` on.
fn name_row(text: &[u8], kind: usize, from: usize, n: usize) -> [u32; SYMBOL_WORDS]
    requires { (kind ≤ 1) × (from + n ≤ 1048577) }
    ensures { result ≡ symbol_row kind (words_from text.now from n) }
{
    let mut row = [0; SYMBOL_WORDS];
    put(&mut row, KIND, kind);
    put(&mut row, NAME_LENGTH, n);
    for i in 0..n {
        put(&mut row, NAME + i, byte(text, from + i));
    }
    row
}

// The record of the symbol whose token has this kind, place and size; a lake's name stands behind its `<`. Here and below text, kind, place and size come
// one by
// one, as `symbol_at` takes them.
fn symbol_row(text: &[u8], kind: Kind, start: usize, size: usize) -> [u32; SYMBOL_WORDS]
    requires { start + size ≤ 1048576 }
    ensures { result ≡ symbol_at text.now kind start size }
{
    let k = lake_of(kind);
    name_row(text, k, start + k, size)
}

// "Left sides in order, then lakes without a rule by first use": the symbol's number, and the symbol is added where it is new.
pub fn note_symbol(text: &[u8], kind: Kind, start: usize, size: usize, t: &mut [u32]) -> usize
    requires { start + size ≤ 1048576 }
    ensures { Noted t.old t.new (symbol_at text.now kind start size) 0 symbol_key symbol_words symbols_at result }
{
    let row = symbol_row(text, kind, start, size);
    note(t, &row, COUNT, SYMBOL_KEY, SYMBOL_WORDS, SYMBOLS_AT)
}

// The number of a symbol that is used; the number of symbols where it is none of them, since a number is stored of any text.
pub fn symbol_number(text: &[u8], kind: Kind, start: usize, size: usize, t: &[u32]) -> usize
    requires { start + size ≤ 1048576 }
    ensures { (result ≡ seek t.now (symbol_at text.now kind start size) symbol_key symbol_words symbols_at (kept t.now 0))
        × (result ≤ 64) }
{
    let row = symbol_row(text, kind, start, size);
    let n = least(symbols(t), 64);
    find(t, &row, SYMBOL_KEY, SYMBOL_WORDS, SYMBOLS_AT, n)
}
