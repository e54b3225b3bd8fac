// Records of words, one behind the other in a run of words that is lent: the number of the first that equals a given one, which is added
// where there is none. So symbols and terminals get their numbers (01, Notation: "by first use", "by first appearance").
#![tactic(auto)]

ghost use Rattle.std.specs.Prelude.{◌+◌, ◌*◌, ◌<◌, ◌≤◌, ◌-◌, ◌≡◌, set, length, replicate};
ghost use Rattle.std.proofs.lemmas.List.Edits.{sets};
ghost use Rattle.grammar.specs.Same.{same_bytes};
ghost use Rattle.grammar_table.specs.Table.{words_from, table_words};
ghost use Rattle.grammar_table.specs.steps.Rows.{row_is, seek, cap, Noted};
ghost use Rattle.grammar_table.specs.Trees.{below};

use base_words::{put, word};

pub mod records;

// The layout, as specs/Table.antt has it: where the records of symbols, terminals and expressions begin, and how many words one has.
pub const SYMBOLS_AT: usize = 8;

pub const SYMBOL_WORDS: usize = 42;

pub const TERMINALS_AT: usize = 2696;

pub const TERMINAL_WORDS: usize = 258;

pub const EXPRESSIONS_AT: usize = 19208;

pub const EXPRESSION_WORDS: usize = 3;

pub const WORDS: usize = 22280;

pub type Table = [u32; WORDS];

// The kind is the first word of every record.
pub const KIND: usize = 0;

// Words of a symbol's record behind it: its body (0 none, else 1 + its expression), then the length of its name and the name.
pub const BODY: usize = 1;

pub const NAME_LENGTH: usize = 3;

pub const NAME: usize = 4;

// Records are told apart by their first word and those from here on.
pub const SYMBOL_KEY: usize = 3;

pub const TERMINAL_KEY: usize = 1;

// Words of a terminal's record behind its kind: the length of a literal, then its bytes or the 256 marks of a class.
pub const LENGTH: usize = 1;

pub const CONTENT: usize = 2;

// The two others of an expression.
pub const LEFT: usize = 1;

pub const RIGHT: usize = 2;

// The kinds are numbers and no enum: they are words of a table that is lent and may hold anything, and `records::op` promises the word itself.
// Kinds of terminals.
pub const ANY: usize = 0;

pub const LITERAL: usize = 1;

pub const CLASS: usize = 2;

// Kinds of expressions.
pub const TERMINAL: usize = 0;

pub const SYMBOL: usize = 1;

pub const SEQUENCE: usize = 2;

pub const CHOICE: usize = 3;

pub const OPTION: usize = 4;

pub const STAR: usize = 5;

pub const PLUS: usize = 6;

pub const AHEAD: usize = 7;

pub const NEVER: usize = 8;

// A table of zeros, whatever it was.
pub fn renew(t: &mut Table)
    ensures { t.new ≡ replicate table_words 0 }
{
    *t = [0; WORDS];
}

// Whether the n words from i of a are those from j of b.
fn same_words(a: &[u32], i: usize, b: &[u32], j: usize, n: usize) -> bool
    requires { (i + n < 4294967296) × (j + n < 4294967296) }
    ensures { result ≡ same_bytes (words_from a.now i n) (words_from b.now j n) }
{
    (0..n).all(|k| word(a, i + k) == word(b, j + k))
}

// Stores the first n words of `from` at `at` and behind it.
fn store(from: &[u32], n: usize, to: &mut [u32], at: usize)
    requires { at + n < 4294967296 }
    ensures { to.new ≡ sets to.old at (words_from from.now 0 n) }
{
    for k in 0..n {
        put(to, at + k, word(from, k));
    }
}

// Here and below a record's words, its width and its place are handed over one by one: so `row_is` and `seek` take them.
// Whether the record at b is `rec`: by its first word and those from o on. What stands between is no part of what it is.
fn same_record(t: &[u32], b: usize, rec: &[u32], o: usize, width: usize) -> bool
    requires { (o ≤ width) × (b + width < 4294967296) }
    ensures { result ≡ row_is t.now b rec.now o width }
{
    word(t, b) == word(rec, 0) && same_words(t, b + o, rec, o, width - o)
}

// The number of the first of n records that is `rec`; n where none is, which is the number that a new one gets: so `seek` promises it.
pub fn find(t: &[u32], rec: &[u32], o: usize, width: usize, base: usize, n: usize) -> usize
    requires { (o ≤ width) × (base + width * n < 4294967296) }
    ensures { result ≡ seek t.now rec.now o width base n }
{
    for i in 0..n {
        if same_record(t, base + width * i, rec, o, width) {
            return i;
        }
    }
    n
}

// The smaller one.
pub fn least(a: usize, b: usize) -> usize
    ensures { result ≡ cap b a }
{
    a.min(b)
}

// Adds `rec` behind the n records that there are.
fn add(t: &mut [u32], rec: &[u32], head: usize, width: usize, base: usize, n: usize)
    requires { (n < 64) × (base + width * n + width < 4294967296) }
    ensures { t.new ≡ set (sets t.old (base + width * n) (words_from rec.now 0 width)) head (n + 1) }
{
    store(rec, width, t, base + width * n);
    put(t, head, n + 1);
}

// The number of `rec`, which is added where it is new. Word `head` counts the records: at most 64 are kept, and 65 says that there are more.
pub fn note(t: &mut [u32], rec: &[u32], head: usize, o: usize, width: usize, base: usize) -> usize
    requires { (o ≤ width) × (base + width * 65 < 4294967296) }
    ensures { Noted t.old t.new rec.now head o width base result }
{
    let count = least(word(t, head), 64);
    let number = find(t, rec, o, width, base, count);
    if number == count {
        if count < 64 {
            add(t, rec, head, width, base, count);
        } else {
            put(t, head, 65);
        }
    }
    number
}

// A part of expression e as evaluation goes to it: 1 + its number; one that does not come before e stands for `.`, which is 0. `below` promises the
// number, in which a table's words and the matcher's keys keep it.
pub fn part(i: usize, e: usize) -> usize
    requires { i < 4294967296 }
    ensures { result ≡ below i e }
{
    if i < e { i + 1 } else { 0 }
}
