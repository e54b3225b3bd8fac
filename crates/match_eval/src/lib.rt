// Evaluation of a table's expressions over work cells (01, Meaning of a match).
#![tactic(auto)]

ghost use Rattle.std.specs.Prelude.{◌≡◌, ◌<◌, ◌≤◌, length};
ghost use Rattle.read_tokens.specs.Token.{any, literal, class};
ghost use Rattle.grammar_table.specs.Table.{words_from, marks_from, leaf_in};
ghost use Rattle.match_eval.specs.Eval.{leaf_at, cell_at, ev};
ghost use Rattle.match_eval.specs.steps.Memory.{rounds_of, Knows};
ghost use Rattle.match_eval.specs.steps.Firsts.{byte_at};
ghost use Rattle.grammar_table.specs.Trees.{tree_of};

use base_words::word;
use grammar_table::{Table, records};
use memory::Memory;

pub mod memory;

// The byte at the text's end: a number, by which words of the memory and of the plan are found.
pub const END: usize = 256;

// The byte at p.
pub fn byte_at(s: &[u8], p: usize) -> usize
    ensures { (result ≡ byte_at s.now p) × (result ≤ 256) }
{
    if p < s.len() { usize::from(s[p]) } else { END }
}

// What any byte takes. Here and below an answer is the word of a work cell, kept as it is (01, Meaning of a match): 0 for failure, else 1 + the bytes taken.
pub fn any_at(s: &[u8], p: usize) -> usize
    ensures { result ≡ leaf_at s.now any p }
{
    if p < s.len() { 2 } else { 0 }
}

// What a literal of n bytes takes, which stand in the table from i on: one pass.
fn literal_at(t: &[u32], s: &[u8], i: usize, n: usize, p: usize) -> usize
    requires { (i < 4294967296000) × (n < 4294967296) × (length s.now ≤ 65535) × (p ≤ length s.now) }
    ensures { result ≡ leaf_at s.now (literal (words_from t.now i n)) p }
{
    for k in 0..n {
        let q = p + k;
        if s.len() <= q || usize::from(s[q]) != word(t, i + k) {
            return 0;
        }
    }
    n + 1
}

// What a class takes, whose marks stand in the table from i on: one lookup.
fn class_at(t: &[u32], s: &[u8], i: usize, p: usize) -> usize
    requires { i < 4294967296000 }
    ensures { result ≡ leaf_at s.now (class (marks_from t.now i 256)) p }
{
    if p < s.len() && word(t, i + usize::from(s[p])) != 0 {
        2
    } else {
        0
    }
}

// What terminal x takes.
pub fn leaf_at(t: &[u32], s: &[u8], x: usize, p: usize) -> usize
    requires { (x < 4294967296) × (length s.now ≤ 65535) × (p ≤ length s.now) }
    ensures { result ≡ leaf_at s.now (leaf_in t.now x) p }
{
    let i = records::content_at(x);
    match records::leaf_kind(t, x) {
        grammar_table::ANY => any_at(s, p),
        grammar_table::LITERAL => {
            let n = records::leaf_length(t, x);
            literal_at(t, s, i, n, p)
        }
        _ => class_at(t, s, i, p),
    }
}

// What the cells say of symbol r of n.
pub fn cell_at(s: &[u8], cells: &[u32], n: usize, r: usize, p: usize) -> usize
    requires { (n ≤ 64) × (length s.now ≤ 65535) × (p ≤ length s.now) }
    ensures { result ≡ cell_at s.now cells.now n r p }
{
    if n <= r {
        return 0;
    }
    let v = word(cells, p * n + r);
    if v <= s.len() - p + 1 { v } else { 0 }
}

// What expression x - 1 takes at p, and `.` for 0. Callers write cells and memory between calls: a struct of what is lent here would have to be made anew for
// each.
// Symbols are looked up, so that it goes down one body only; rounds that are remembered are not asked again, and a part that the byte at its place decides is
// not evaluated.
#[cycle(eval_with_many_round)]
pub fn eval_with(
    t: &Table,
    s: &[u8],
    cells: &[u32],
    mem: &Memory,
    n: usize,
    x: usize,
    p: usize,
) -> usize
    requires { ((n ≤ 64) × (x ≤ 4294967296) × (length s.now ≤ 65535) × (p ≤ length s.now)) × Knows t.now s.now cells.now n mem.now 0 p }
    ensures { result ≡ ev s.now cells.now n (tree_of t.now x) p }
{
    if x == 0 {
        return any_at(s, p);
    }
    let e = x - 1;
    let l = records::left(t, e);
    let y = grammar_table::part(l, e);
    let op = records::op(t, e);
    match op {
        grammar_table::TERMINAL => leaf_at(t, s, l, p),
        grammar_table::SYMBOL => cell_at(s, cells, n, l, p),
        grammar_table::SEQUENCE => {
            let a = round(t, s, cells, mem, n, y, p);
            if a == 0 {
                return 0;
            }
            let r = records::right(t, e);
            let z = grammar_table::part(r, e);
            let b = round(t, s, cells, mem, n, z, p + (a - 1));
            if b == 0 { 0 } else { a + b - 1 }
        }
        grammar_table::CHOICE => {
            let a = round(t, s, cells, mem, n, y, p);
            if a != 0 {
                return a;
            }
            let r = records::right(t, e);
            let z = grammar_table::part(r, e);
            round(t, s, cells, mem, n, z, p)
        }
        grammar_table::OPTION => {
            let a = round(t, s, cells, mem, n, y, p);
            if a == 0 { 1 } else { a }
        }
        grammar_table::STAR => many(t, s, cells, mem, n, y, p) + 1,
        grammar_table::PLUS => {
            let a = round(t, s, cells, mem, n, y, p);
            if a <= 1 {
                a
            } else {
                a + many(t, s, cells, mem, n, y, p + (a - 1))
            }
        }
        grammar_table::AHEAD => {
            let a = round(t, s, cells, mem, n, y, p);
            if a == 0 { 0 } else { 1 }
        }
        _ => {
            let a = round(t, s, cells, mem, n, y, p);
            if a == 0 { 1 } else { 0 }
        }
    }
}

// The same for a part that is most often a symbol: that is looked up without the evaluation's frame.
pub fn part_at(
    t: &Table,
    s: &[u8],
    cells: &[u32],
    mem: &Memory,
    n: usize,
    x: usize,
    p: usize,
) -> usize
    requires { ((n ≤ 64) × (x ≤ 4294967296) × (length s.now ≤ 65535) × (p ≤ length s.now)) × Knows t.now s.now cells.now n mem.now 0 p }
    ensures { result ≡ ev s.now cells.now n (tree_of t.now x) p }
{
    if x == 0 {
        return any_at(s, p);
    }
    let e = x - 1;
    if records::op(t, e) == grammar_table::SYMBOL {
        let l = records::left(t, e);
        return cell_at(s, cells, n, l, p);
    }
    eval_with(t, s, cells, mem, n, x, p)
}

// The bytes that rounds of expression x - 1 take from p on: up to the first that fails or takes nothing, or to a place from which they are known. What the byte
// at a place decides is asked first: where it says that no round begins, nothing is remembered. No round is counted: a step is what the round takes.
#[cycle(eval_with_many_round)]
pub fn many(t: &Table, s: &[u8], cells: &[u32], mem: &Memory, n: usize, x: usize, p: usize) -> usize
    requires { ((n ≤ 64) × (x ≤ 4294967296) × (length s.now ≤ 65535) × (p ≤ length s.now)) × Knows t.now s.now cells.now n mem.now 0 p }
    ensures { result ≡ rounds_of t.now s.now cells.now n x p }
{
    let mut q = p;
    loop {
        let b = byte_at(s, q);
        let w = memory::said(mem, x, b);
        if w == 1 || w == 2 {
            return q - p;
        }
        if let Some(c) = memory::known(mem, x, q) {
            return q - p + c;
        }
        let a = if w == 0 {
            eval_with(t, s, cells, mem, n, x, q)
        } else {
            w - 1
        };
        if a <= 1 {
            return q - p;
        }
        q += a - 1;
    }
}

// What expression x - 1 takes at p, not evaluated where the byte there decides it.
#[cycle(eval_with_many_round)]
pub fn round(
    t: &Table,
    s: &[u8],
    cells: &[u32],
    mem: &Memory,
    n: usize,
    x: usize,
    p: usize,
) -> usize
    requires { ((n ≤ 64) × (x ≤ 4294967296) × (length s.now ≤ 65535) × (p ≤ length s.now)) × Knows t.now s.now cells.now n mem.now 0 p }
    ensures { result ≡ ev s.now cells.now n (tree_of t.now x) p }
{
    let b = byte_at(s, p);
    let w = memory::said(mem, x, b);
    if w == 0 {
        eval_with(t, s, cells, mem, n, x, p)
    } else {
        w - 1
    }
}

// The rounds of `many`, where the newest run tells them, without its frame: at p itself, or behind the byte there if that is a round by itself.
pub fn many_at(
    t: &Table,
    s: &[u8],
    cells: &[u32],
    mem: &Memory,
    n: usize,
    x: usize,
    p: usize,
) -> usize
    requires { ((n ≤ 64) × (x ≤ 4294967296) × (length s.now ≤ 65535) × (p ≤ length s.now)) × Knows t.now s.now cells.now n mem.now 0 p }
    ensures { result ≡ rounds_of t.now s.now cells.now n x p }
{
    let b = byte_at(s, p);
    let w = memory::said(mem, x, b);
    if w == 0 {
        if let Some(c) = memory::running(mem, x, p) {
            return c;
        }
    } else if w < 3 {
        return 0;
    } else if let Some(c) = memory::running(mem, x, p + 1) {
        return c + 1;
    }
    many(t, s, cells, mem, n, x, p)
}

// The same as `round`, for a part that is most often decided, a symbol or a repeat: these are answered without the evaluation's frame.
pub fn piece(
    t: &Table,
    s: &[u8],
    cells: &[u32],
    mem: &Memory,
    n: usize,
    x: usize,
    p: usize,
) -> usize
    requires { ((n ≤ 64) × (x ≤ 4294967296) × (length s.now ≤ 65535) × (p ≤ length s.now)) × Knows t.now s.now cells.now n mem.now 0 p }
    ensures { result ≡ ev s.now cells.now n (tree_of t.now x) p }
{
    let b = byte_at(s, p);
    let w = memory::said(mem, x, b);
    if w != 0 {
        return w - 1;
    }
    if x == 0 {
        return any_at(s, p);
    }
    let e = x - 1;
    let l = records::left(t, e);
    match records::op(t, e) {
        grammar_table::SYMBOL => return cell_at(s, cells, n, l, p),
        grammar_table::STAR => {
            let y = grammar_table::part(l, e);
            return many_at(t, s, cells, mem, n, y, p) + 1;
        }
        grammar_table::PLUS => {
            let y = grammar_table::part(l, e);
            let v = memory::said(mem, y, b);
            if v == 3 {
                let d = byte_at(s, p + 1);
                let u = memory::said(mem, y, d);
                if u == 1 {
                    return 2;
                }
                return many_at(t, s, cells, mem, n, y, p) + 1;
            }
        }
        _ => {}
    }
    eval_with(t, s, cells, mem, n, x, p)
}
