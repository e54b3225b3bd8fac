// The words of a table's records, read and stored: the only code that knows where they stand (specs/Table.antt). Every reading is total, for a table may
// hold anything, and a store past the table's end stores nothing. Numbers stay `usize` with a bound: a narrower type would ask more of callers.
ghost use Rattle.std.specs.Prelude.{◌+◌, ◌*◌, ◌<◌, ◌≡◌, get_or, set};
ghost use Rattle.grammar_table.specs.Table.{symbol_count, terminal_count, expression_count, symbol_word, terminal_word, terminals_at, terminal_words};
ghost use Rattle.grammar_table.specs.Table.{op_of, left_of, right_of, symbols_at, symbol_words, expressions_at, expression_words, name_at, content_at};

use crate::{
    BODY, CONTENT, EXPRESSION_WORDS, EXPRESSIONS_AT, KIND, LEFT, LENGTH, NAME, NAME_LENGTH, RIGHT,
    SYMBOL_WORDS, SYMBOLS_AT, TERMINAL_WORDS, TERMINALS_AT,
};
use base_words::{put, word};

// How many symbols there are, how many terminals, how many expressions.
pub fn symbols(t: &[u32]) -> usize
    ensures { (result ≡ symbol_count t.now) × (result < 4294967296) }
{
    word(t, 0)
}

pub fn terminals(t: &[u32]) -> usize
    ensures { (result ≡ terminal_count t.now) × (result < 4294967296) }
{
    word(t, 1)
}

pub fn expressions(t: &[u32]) -> usize
    ensures { (result ≡ expression_count t.now) × (result < 4294967296) }
{
    word(t, 2)
}

// Where the record of symbol r begins.
fn symbol_at(r: usize) -> usize
    requires { r < 1125899906842624 }
    ensures { result ≡ symbols_at + symbol_words * r }
{
    SYMBOLS_AT + SYMBOL_WORDS * r
}

// The kind of symbol r: 0 a nonterminal, else a lake.
pub fn kind(t: &[u32], r: usize) -> usize
    requires { r < 1125899906842624 }
    ensures { (result ≡ symbol_word t.now r 0) × (result < 4294967296) }
{
    word(t, symbol_at(r) + KIND)
}

// Its body, a word of the table: 0 none, else 1 + its expression.
pub fn body(t: &[u32], r: usize) -> usize
    requires { r < 1125899906842624 }
    ensures { (result ≡ symbol_word t.now r 1) × (result < 4294967296) }
{
    word(t, symbol_at(r) + BODY)
}

pub fn store_body(t: &mut [u32], r: usize, x: usize)
    requires { (r < 1125899906842624) × (x < 4294967296) }
    ensures { t.new ≡ set t.old (symbols_at + symbol_words * r + 1) x }
{
    put(t, symbol_at(r) + BODY, x);
}

// Of its name: how many bytes, where the first stands, and byte j.
pub fn name_length(t: &[u32], r: usize) -> usize
    requires { r < 1125899906842624 }
    ensures { (result ≡ symbol_word t.now r 3) × (result < 4294967296) }
{
    word(t, symbol_at(r) + NAME_LENGTH)
}

pub fn name_at(r: usize) -> usize
    requires { r < 1125899906842624 }
    ensures { result ≡ name_at r }
{
    symbol_at(r) + NAME
}

pub fn name_word(t: &[u32], r: usize, j: usize) -> usize
    requires { (r < 1125899906842624) × (j < 1125899906842624) }
    ensures { (result ≡ get_or t.now (name_at r + j) 0) × (result < 4294967296) }
{
    word(t, name_at(r) + j)
}

// Where the record of terminal x begins.
pub fn leaf_at(x: usize) -> usize
    requires { x < 1125899906842624 }
    ensures { result ≡ terminals_at + terminal_words * x }
{
    TERMINALS_AT + TERMINAL_WORDS * x
}

// The kind of terminal x, and the length of a literal.
pub fn leaf_kind(t: &[u32], x: usize) -> usize
    requires { x < 1125899906842624 }
    ensures { (result ≡ terminal_word t.now x 0) × (result < 4294967296) }
{
    word(t, leaf_at(x) + KIND)
}

pub fn leaf_length(t: &[u32], x: usize) -> usize
    requires { x < 1125899906842624 }
    ensures { (result ≡ terminal_word t.now x 1) × (result < 4294967296) }
{
    word(t, leaf_at(x) + LENGTH)
}

// Of its content: where the first word stands, and word j, a byte of a literal or a mark of a class.
pub fn content_at(x: usize) -> usize
    requires { x < 1125899906842624 }
    ensures { result ≡ content_at x }
{
    leaf_at(x) + CONTENT
}

pub fn leaf_word(t: &[u32], x: usize, j: usize) -> usize
    requires { (x < 1125899906842624) × (j < 1125899906842624) }
    ensures { (result ≡ get_or t.now (content_at x + j) 0) × (result < 4294967296) }
{
    word(t, content_at(x) + j)
}

// Where the record of expression e begins.
fn expression_at(e: usize) -> usize
    requires { e < 1125899906842624 }
    ensures { result ≡ expressions_at + expression_words * e }
{
    EXPRESSIONS_AT + EXPRESSION_WORDS * e
}

// The kind of expression e, its left word and its right one.
pub fn op(t: &[u32], e: usize) -> usize
    requires { e < 1125899906842624 }
    ensures { (result ≡ op_of t.now e) × (result < 4294967296) }
{
    word(t, expression_at(e) + KIND)
}

pub fn left(t: &[u32], e: usize) -> usize
    requires { e < 1125899906842624 }
    ensures { (result ≡ left_of t.now e) × (result < 4294967296) }
{
    word(t, expression_at(e) + LEFT)
}

pub fn right(t: &[u32], e: usize) -> usize
    requires { e < 1125899906842624 }
    ensures { (result ≡ right_of t.now e) × (result < 4294967296) }
{
    word(t, expression_at(e) + RIGHT)
}

// The record of expression e.
pub fn store_expression(t: &mut [u32], e: usize, op: usize, l: usize, r: usize)
    requires { (e < 1125899906842624) × (op < 4294967296) × (l < 4294967296) × (r < 4294967296) }
    ensures { t.new
        ≡ set (set (set t.old (expressions_at + expression_words * e) op) (expressions_at + expression_words * e + 1) l)
        (expressions_at + expression_words * e + 2) r }
{
    let at = expression_at(e);
    put(t, at + KIND, op);
    put(t, at + LEFT, l);
    put(t, at + RIGHT, r);
}
