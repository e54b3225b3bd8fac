// The parts of a sequence, or the alternatives of a choice, listed once a match, so that they are evaluated one after the other without going down the
// expression at each place (01, Meaning of a match). There is a list for each symbol's body and for each key's part. Of how the lists are made nothing is
// promised: they are checked when they are made, and lists that are not right are not used.
#![tactic(auto)]

ghost use Rattle.std.specs.Prelude.{ℕ, ◌+◌, ◌-◌, ◌<◌, ◌≤◌, ◌≡◌, true, get_or, length};
ghost use Rattle.grammar_table.specs.Table.{op_of, symbol_word};
ghost use Rattle.match_eval.specs.steps.Memory.{parts_at, Knows};
ghost use Rattle.match_parts.specs.steps.Lists.{list_of, Listed, AllListed};

use base_words::{put, word};
use grammar_table::{CHOICE, SEQUENCE, Table, part, records};
use match_eval::memory::{COUNT, Memory, PARTS_AT};

// A word for each symbol and for each key, where its list begins; then the lists: kind, number of parts, the parts, the last first.
pub const WORDS: usize = 2048;

pub type Lists = [u32; WORDS];

// Where the words of the keys begin: no grammar has more symbols.
pub const KEYS_AT: usize = 64;

// Where the lists begin: there are 1,025 keys at most.
const LISTS_AT: usize = 1089;

const PARTS: usize = 2;

// What is asked of a list: over the cells of n symbols, where it begins, at which place.
#[derive(Clone, Copy)]
pub struct Ask {
    pub n: usize,
    pub i: usize,
    pub p: usize,
}

// What the list takes that is asked: 0 for failure, else 1 + the bytes taken.
pub fn list_at(t: &Table, s: &[u8], cells: &[u32], mem: &Memory, lists: &Lists, ask: Ask) -> usize
    requires { ((ask.n ≤ 64) × (ask.i < 4294967296) × (length s.now ≤ 65535) × (ask.p ≤ length s.now))
        × Knows t.now s.now cells.now ask.n mem.now 0 ask.p }
    ensures { result ≡ list_of t.now s.now cells.now ask.n lists.now ask.i ask.p }
{
    let kind = word(lists, ask.i);
    let count = word(lists, ask.i + 1);
    let mut q = ask.p;
    for k in (0..count).rev() {
        let x = word(lists, ask.i + PARTS + k);
        let a = match_eval::piece(t, s, cells, mem, ask.n, x, q);
        if kind == CHOICE {
            if a != 0 {
                return a;
            }
        } else {
            if a == 0 {
                return 0;
            }
            q += a - 1;
        }
    }
    if kind == CHOICE { 0 } else { q - ask.p + 1 }
}

// Whether x is of that kind itself, so that its parts are listed.
fn goes_on(t: &[u32], kind: usize, x: usize) -> bool
    requires { x ≤ 4294967296 }
    ensures { result ≡ true → (0 < x) × (op_of t.now (x - 1) ≡ kind) }
{
    x != 0 && records::op(t, x - 1) == kind
}

// Whether the list at i is of part x: the expression is gone down along its first parts.
fn is_of(t: &[u32], lists: &Lists, i: usize, x: usize) -> bool
    requires { (i < 4294967296) × (x ≤ 4294967296) }
    ensures { result ≡ true → Listed t.now lists.now i x }
{
    let kind = word(lists, i);
    let count = word(lists, i + 1);
    if count == 0 || kind < SEQUENCE || CHOICE < kind {
        return false;
    }
    let last = count - 1;
    let mut y = x;
    for j in 0..last {
        if !goes_on(t, kind, y) {
            return false;
        }
        let e = y - 1;
        let r = records::right(t, e);
        if word(lists, i + PARTS + j) != part(r, e) {
            return false;
        }
        let l = records::left(t, e);
        y = part(l, e);
    }
    word(lists, i + PARTS + last) == y
}

// Whether the lists of n symbols' bodies are theirs.
fn bodies_checked(t: &[u32], n: usize, lists: &Lists) -> bool
    requires { n ≤ 64 }
    ensures { result ≡ true → (r : ℕ) → r < n
        → Listed t.now lists.now (get_or lists.now r 0) (symbol_word t.now r 1) }
{
    (0..n).all(|r| is_of(t, lists, word(lists, r), records::body(t, r)))
}

// Whether the lists of the first d keys' parts are theirs.
fn parts_checked(t: &[u32], mem: &[u32], d: usize, lists: &Lists) -> bool
    requires { d ≤ 1025 }
    ensures { result ≡ true → (k : ℕ) → k < d
        → Listed t.now lists.now (get_or lists.now (64 + k) 0) (get_or mem.now (parts_at + k) 0) }
{
    (0..d).all(|k| is_of(t, lists, word(lists, KEYS_AT + k), word(mem, PARTS_AT + k)))
}

// Whether all lists are right, and there are no more keys than have words.
pub fn checked(t: &[u32], mem: &[u32], n: usize, lists: &Lists) -> bool
    requires { n ≤ 64 }
    ensures { result ≡ true → AllListed t.now mem.now n lists.now }
{
    let d = word(mem, COUNT);
    d <= match_eval::memory::PARTS && bodies_checked(t, n, lists) && parts_checked(t, mem, d, lists)
}

// ── made; nothing is promised but where they end ──

// The kind of the list of part x.
fn kind_of(t: &[u32], x: usize) -> usize
    requires { x ≤ 4294967296 }
    ensures { result < 4 }
{
    if x != 0 && records::op(t, x - 1) == CHOICE {
        CHOICE
    } else {
        SEQUENCE
    }
}

// The list of part x from i on; the place behind it. The walk goes down the parts: how many there are is known at its end.
fn put_list(t: &[u32], lists: &mut Lists, x: usize, i: usize) -> usize
    requires { (x < 1025) × (i < 2048) }
    ensures { result ≤ 4096 }
{
    let kind = kind_of(t, x);
    let mut y = x;
    let mut j: usize = 0;
    while goes_on(t, kind, y) {
        let e = y - 1;
        let r = records::right(t, e);
        let z = part(r, e);
        put(lists, i + PARTS + j, z);
        let l = records::left(t, e);
        y = part(l, e);
        j += 1;
    }
    put(lists, i + PARTS + j, y);
    put(lists, i, kind);
    put(lists, i + 1, j + 1);
    i + PARTS + j + 1
}

// The list of part x, of symbol or key k, from i on if there is room and a table may have such a part; the place behind it.
fn put_one(t: &[u32], lists: &mut Lists, x: usize, k: usize, i: usize) -> usize
    requires { i ≤ 4096 }
    ensures { result ≤ 4096 }
{
    if WORDS <= i || match_eval::memory::PARTS <= x {
        return i;
    }
    put(lists, k, i);
    put_list(t, lists, x, i)
}

// The lists of n symbols' bodies and of all keys' parts.
pub fn list_all(t: &[u32], mem: &[u32], n: usize, lists: &mut Lists)
    requires { n ≤ 64 }
{
    let mut i = LISTS_AT;
    for r in 0..n {
        let x = records::body(t, r);
        i = put_one(t, lists, x, r, i);
    }
    for k in 0..word(mem, COUNT) {
        let y = word(mem, PARTS_AT + k);
        i = put_one(t, lists, y, KEYS_AT + k, i);
    }
}
