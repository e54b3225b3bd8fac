// The lake question on filled cells (01, Meaning of a match).
#![tactic(auto)]

ghost use Rattle.std.specs.Prelude.{ℕ, ◌+◌, ◌≤◌, ◌<◌, ◌≡◌, Bool, true, false, List, length, drop};
ghost use Rattle.grammar.specs.Numbers.{is_lake};
ghost use Rattle.grammar_table.specs.Table.{up_to, symbol_count, terminal_count, name_in, leaf_in, body_by, grammar_in};
ghost use Rattle.lake_step_one.specs.Intermediate.{water_in};
ghost use Rattle.lake_plain.specs.Plain.{nonterminals_in, terminals_in};
ghost use Rattle.match_eval.specs.steps.Memory.{Knows};
ghost use Rattle.match_lake.specs.Asking.{none_matches, own_takes, symbol_fails, terminal_fails, way_in};
ghost use Rattle.match_lake.specs.steps.Ways.{way_of, WaterAt};

pub mod ways;

use crate::ways::Way;
use base_words::member;
use grammar_table::{Table, records};
use match_eval::memory::Memory;

// Whether the body with word b matches at p; there is none for 0, as words of a table say it (`body_by`). The memory has to know of p alone, so that no
// struct says more of it.
fn takes(t: &Table, s: &[u8], cells: &[u32], mem: &Memory, n: usize, b: usize, p: usize) -> bool
    requires { ((n ≤ 64) × (b < 4294967296) × (length s.now ≤ 65535) × (p ≤ length s.now)) × Knows t.now s.now cells.now n mem.now 0 p }
    ensures { result ≡ own_takes s.now cells.now n (body_by t.now b) p }
{
    b != 0 && match_eval::eval_with(t, s, cells, mem, n, b, p) != 0
}

// The symbol called `water`.
fn water_at(t: &[u32], n: usize) -> Option<usize>
    requires { n ≤ 64 }
    ensures { WaterAt t.now n result }
{
    for i in 0..n {
        if lake_step_one::is_water(t, i) {
            return Some(i);
        }
    }
    None
}

// The word of its body; 0 where there is none: a word of a table, as `body_by` reads it.
fn water_body(t: &[u32], n: usize) -> usize
    requires { (n ≡ symbol_count t.now) × (n ≤ 64) }
    ensures { (body_by t.now result ≡ water_in (grammar_in t.now)) × (result < 4294967296) }
{
    match water_at(t, n) {
        Some(w) => records::body(t, w),
        None => 0,
    }
}

// Whether `water` matches at p: nowhere where there is no such rule (02, §4).
fn water_takes(t: &Table, s: &[u8], cells: &[u32], mem: &Memory, n: usize, p: usize) -> bool
    requires { ((n ≡ symbol_count t.now) × (n ≤ 64) × (length s.now ≤ 65535) × (p ≤ length s.now))
        × Knows t.now s.now cells.now n mem.now 0 p }
    ensures { result ≡ own_takes s.now cells.now n (water_in (grammar_in t.now)) p }
{
    takes(t, s, cells, mem, n, water_body(t, n), p)
}

// Whether symbol i is no alternative or fails at p: lakes are none.
fn symbol_fails(
    t: &[u32],
    s: &[u8],
    cells: &[u32],
    n: usize,
    alt: [u64; 2],
    i: usize,
    p: usize,
) -> bool
    requires { (n ≤ 64) × (i < 64) × (length s.now ≤ 65535) × (p ≤ length s.now) }
    ensures { result ≡ symbol_fails s.now cells.now n alt i (name_in t.now i) p }
{
    let lake = records::kind(t, i) != 0;
    !member(alt, i) || lake || match_eval::cell_at(s, cells, n, i, p) == 0
}

fn symbols_fail(t: &[u32], s: &[u8], cells: &[u32], n: usize, alt: [u64; 2], p: usize) -> bool
    requires { (n ≤ 64) × (length s.now ≤ 65535) × (p ≤ length s.now) }
    ensures { result ≡ none_matches s.now cells.now n (nonterminals_in alt 0 (drop 0 (up_to (name_in t.now) n))) p }
{
    (0..n).all(|i| symbol_fails(t, s, cells, n, alt, i, p))
}

// Whether terminal i is no alternative or fails at p.
fn terminal_fails(t: &[u32], s: &[u8], alt: [u64; 2], i: usize, p: usize) -> bool
    requires { (i < 64) × (length s.now ≤ 65535) × (p ≤ length s.now) }
    ensures { (cells : List ℕ) → (n : ℕ) → result ≡ terminal_fails s.now cells n alt (64 + i) (leaf_in t.now i) p }
{
    !member(alt, 64 + i) || match_eval::leaf_at(t, s, i, p) == 0
}

fn terminals_fail(t: &[u32], s: &[u8], m: usize, alt: [u64; 2], p: usize) -> bool
    requires { (m ≤ 64) × (length s.now ≤ 65535) × (p ≤ length s.now) }
    ensures { (cells : List ℕ) → (n : ℕ)
        → result ≡ none_matches s.now cells n (terminals_in alt 0 (drop 0 (up_to (leaf_in t.now) m))) p }
{
    (0..m).all(|i| terminal_fails(t, s, alt, i, p))
}

// How lake l with the alternative symbols of a set matches at p: by its own rule, by water, or by one byte skipped. What the memory says has to be about t.
pub fn way(
    t: &Table,
    s: &[u8],
    cells: &[u32],
    mem: &Memory,
    alt: [u64; 2],
    l: usize,
    p: usize,
) -> Way
    requires { ((symbol_count t.now ≤ 64) × (terminal_count t.now ≤ 64) × (l < symbol_count t.now) × (length s.now ≤ 65535) × (p ≤ length s.now))
        × Knows t.now s.now cells.now (symbol_count t.now) mem.now 0 p }
    ensures { result ≡ way_of (way_in (grammar_in t.now) s.now cells.now (symbol_count t.now) alt l p) }
{
    let n = records::symbols(t);
    let b = records::body(t, l);
    if takes(t, s, cells, mem, n, b, p) {
        return Way::ByRule;
    }
    if water_takes(t, s, cells, mem, n, p) {
        return Way::ByWater;
    }
    if s.len() <= p {
        return Way::Not;
    }
    if !symbols_fail(t, s, cells, n, alt, p) {
        return Way::Not;
    }
    let m = records::terminals(t);
    if !terminals_fail(t, s, m, alt, p) {
        return Way::Not;
    }
    Way::BySkip
}
