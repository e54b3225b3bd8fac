// Keys for repeated parts, the same for parts with the same tree, so that they share what is remembered (01, Meaning of a match). What the words of the
// memory are: match_eval.
#![tactic(auto)]

ghost use Rattle.std.specs.Prelude.{◌<◌, ◌≤◌, ◌≡◌, true, IfSome};
ghost use Rattle.grammar_table.specs.Trees.{tree_of};
ghost use Rattle.match_eval.specs.steps.Memory.{Found, Fresh};

use base_words::{put, word};
use grammar_table::{CHOICE, PLUS, SEQUENCE, STAR, SYMBOL, TERMINAL, part, records};
use match_eval::memory::{COUNT, ENTRIES, KEYS_AT, PARTS, PARTS_AT, PLACES, key};

// Whether parts x and y are the same tree, word by word.
fn same(t: &[u32], x: usize, y: usize) -> bool
    requires { (x ≤ 4294967296) × (y ≤ 4294967296) }
    ensures { result ≡ true → tree_of t.now x ≡ tree_of t.now y }
{
    if x == y {
        return true;
    }
    if x == 0 || y == 0 {
        return false;
    }
    let e = x - 1;
    let f = y - 1;
    let op = records::op(t, e);
    if op != records::op(t, f) {
        return false;
    }
    let l = records::left(t, e);
    let m = records::left(t, f);
    match op {
        TERMINAL | SYMBOL => l == m,
        SEQUENCE | CHOICE => {
            let r = records::right(t, e);
            let u = records::right(t, f);
            same(t, part(l, e), part(m, f)) && same(t, part(r, e), part(u, f))
        }
        _ => same(t, part(l, e), part(m, f)),
    }
}

// The key of a part with the same tree as y, if one is listed.
fn find(t: &[u32], mem: &[u32], y: usize) -> Option<usize>
    requires { y ≤ 4294967296 }
    ensures { IfSome result (λ k. Found t.now mem.now y k × (k ≤ 1025)) }
{
    for k in 0..word(mem, COUNT) {
        let z = word(mem, PARTS_AT + k);
        if same(t, z, y) {
            return key(mem, z);
        }
    }
    None
}

// Gives part y the key of its like, or one of its own.
fn enter(t: &[u32], mem: &mut [u32], y: usize)
    requires { (y < 1025) × Fresh t.now mem.old }
    ensures { Fresh t.now mem.new }
{
    if let Some(k) = find(t, mem, y) {
        put(mem, KEYS_AT + y, k);
    } else {
        let d = word(mem, COUNT);
        if d < PARTS {
            put(mem, PARTS_AT + d, y);
            put(mem, COUNT, d + 1);
            put(mem, KEYS_AT + y, d + 1);
        }
    }
}

// The same for what expression e repeats, if it is a repeat.
fn enter_repeat(t: &[u32], mem: &mut [u32], e: usize)
    requires { (e < 1024) × Fresh t.now mem.old }
    ensures { Fresh t.now mem.new }
{
    if matches!(records::op(t, e), STAR | PLUS) {
        let l = records::left(t, e);
        enter(t, mem, part(l, e));
    }
}

// How many expressions a table may hold: the others are passed over.
fn count(t: &[u32]) -> usize
    ensures { result ≤ 1024 }
{
    records::expressions(t).min(PARTS - 1)
}

// How many places of each of d keys are kept: a power of two, so that a place is found without a division. It is halved, and nothing is counted.
fn places(d: usize) -> usize
    requires { d < 4294967296 }
    ensures { result ≤ 4096 }
{
    let most = ENTRIES / (d + 1);
    let mut w = ENTRIES;
    while most < w {
        w /= 2;
    }
    w
}

// The keys of all repeated parts.
pub fn enter_all(t: &[u32], mem: &mut [u32])
    requires { Fresh t.now mem.old }
    ensures { Fresh t.now mem.new }
{
    for e in 0..count(t) {
        enter_repeat(t, mem, e);
    }
    let d = word(mem, COUNT);
    put(mem, PLACES, places(d));
}
