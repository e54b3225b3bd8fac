// What a node's text holds between the bytes that every node has: a symbol's name, numbers, the characters of the input.
ghost use Rattle.std.specs.Prelude.{◌-◌, ◌≤◌, ◌<◌, ◌≡◌, false, ◌++◌, map, take, drop, length, IfSome, MatchOption};
ghost use Rattle.grammar_table.specs.Table.{words_from};
ghost use Rattle.write_rules.specs.Writing.{symbol_text};
ghost use Rattle.write_leaves.specs.steps.Printed.{low, called};
ghost use Rattle.tree_json.specs.Json.{char_json, chars_json, number_json, quote};
ghost use Rattle.tree_json.specs.Reading.{ate, named_at, digits_at, number_at};
ghost use Rattle.tree_read.specs.steps.Places.{Reached};

use crate::bytes;
use grammar_table::records;
use tree_json::{digit, hex_digit};

// What was read, and the place behind it.
#[derive(Clone, Copy)]
pub struct Reading {
    pub value: usize,
    pub place: usize,
}

// A name's bytes, which stand in the table from i on.
fn eat_words(t: &[u32], json: &[u8], at: usize, i: usize, n: usize) -> Option<usize>
    requires { (i < 4398046511104) × (n < 4294967296) }
    ensures { Reached json.now (ate (map low (words_from t.now i n)) json.now at) result }
{
    let mut a = at;
    for j in 0..n {
        let w = base_words::word(t, i + j);
        a = bytes::eat(json, a, &[(w % 256) as u8])?;
    }
    Some(a)
}

// The name of symbol r, a lake's in its brackets, and the quote behind it.
fn eat_name(t: &[u32], json: &[u8], at: usize, r: usize) -> Option<usize>
    requires { r < 4294967296 }
    ensures place { Reached json.now (ate (symbol_text (called false t.now r) ++ quote) json.now at) result }
    ensures inside { IfSome result (λ a. a ≤ length json.now) }
{
    let i = records::name_at(r);
    let n = records::name_length(t, r);
    if records::kind(t, r) == 0 {
        let a = eat_words(t, json, at, i, n)?;
        return bytes::eat(json, a, b"\"");
    }
    let a = bytes::eat(json, at, b"<")?;
    let b = eat_words(t, json, a, i, n)?;
    bytes::eat(json, b, b">\"")
}

// The first symbol whose name stands there.
pub fn find_name(t: &[u32], symbols: usize, json: &[u8], at: usize) -> Option<Reading>
    requires { symbols ≤ 64 }
    ensures { MatchOption result (length json.now < (named_at (called false t.now) symbols 0 json.now at).place)
        (λ r. (r.value ≡ (named_at (called false t.now) symbols 0 json.now at).value)
        × (r.place ≡ (named_at (called false t.now) symbols 0 json.now at).place) × (r.value ≤ symbols)) }
{
    for value in 0..symbols {
        if let Some(place) = eat_name(t, json, at, value) {
            return Some(Reading { value, place });
        }
    }
    None
}

// What the first digits say, five at most.
fn digits(json: &[u8], at: usize) -> usize
    ensures { (result ≡ digits_at 5 0 json.now at) × (result < 100000) }
{
    let mut v = 0;
    for i in at..json.len().min(at.saturating_add(5)) {
        let b = json[i];
        if b < b'0' || b'9' < b {
            return v;
        }
        v = 10 * v + usize::from(b - b'0');
    }
    v
}

// A number as it must be written.
fn eat_number(json: &[u8], at: usize, v: usize) -> Option<usize>
    ensures { Reached json.now (ate (number_json v) json.now at) result }
{
    let e = digit(1, v);
    if v < 10 {
        return bytes::eat(json, at, &[e]);
    }
    let d = digit(10, v);
    if v < 100 {
        return bytes::eat(json, at, &[d, e]);
    }
    let c = digit(100, v);
    if v < 1000 {
        return bytes::eat(json, at, &[c, d, e]);
    }
    let b = digit(1000, v);
    if v < 10000 {
        return bytes::eat(json, at, &[b, c, d, e]);
    }
    let a = digit(10000, v);
    bytes::eat(json, at, &[a, b, c, d, e])
}

// A number.
pub fn number(json: &[u8], at: usize) -> Option<Reading>
    ensures { MatchOption result (length json.now < (number_at json.now at).place)
        (λ r. (r.value ≡ (number_at json.now at).value) × (r.place ≡ (number_at json.now at).place) × (r.value < 100000)) }
{
    let value = digits(json, at);
    let place = eat_number(json, at, value)?;
    Some(Reading { value, place })
}

// A byte of the input as a string has it.
fn eat_char(json: &[u8], at: usize, c: u8) -> Option<usize>
    ensures { Reached json.now (ate (char_json c) json.now at) result }
{
    match c {
        b'"' => bytes::eat(json, at, b"\\\""),
        b'\\' => bytes::eat(json, at, b"\\\\"),
        32..=126 => bytes::eat(json, at, &[c]),
        _ => {
            let high = hex_digit(c / 16);
            let low = hex_digit(c % 16);
            bytes::eat(json, at, &[b'\\', b'u', b'0', b'0', high, low])
        }
    }
}

// The bytes of the input from p to q; past its end there are none.
pub fn eat_chars(json: &[u8], at: usize, input: &[u8], p: usize, q: usize) -> Option<usize>
    ensures { Reached json.now (ate (chars_json (take (q - p) (drop p input.now))) json.now at) result }
{
    let mut a = at;
    for i in p..q.min(input.len()) {
        a = eat_char(json, a, input[i])?;
    }
    Some(a)
}
