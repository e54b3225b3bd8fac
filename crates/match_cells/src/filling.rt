// The work cells of a plain grammar's table on a text, symbols in the order of ranks (01, Meaning of a match).
ghost use Rattle.std.specs.Prelude.{ℕ, ◌+◌, ◌*◌, ◌^◌, ◌<◌, ◌≤◌, ◌≡◌, true, MatchOption, List, get_or, length, set};
ghost use Rattle.std.specs.Int.Bits.{bit_or};
ghost use Rattle.grammar_table.specs.Table.{words_from, symbol_count};
ghost use Rattle.grammar_table.specs.Trees.{bodies_of};
ghost use Rattle.match_cells.specs.Cells.{body_takes, row_of};
ghost use Rattle.match_eval.specs.steps.Firsts.{byte_at, preset_of};
ghost use Rattle.match_eval.specs.steps.Memory.{Fresh, Knows};
ghost use Rattle.match_parts.specs.steps.Lists.{AllListed};
ghost use Rattle.match_plan.specs.steps.Plan.{Planned};
ghost use Rattle.match_cells.specs.steps.Runs.{Open, record_of, Settable, Fillable, fill_by, FilledBy, Fills};

use crate::tasks;
use crate::tasks::Place;
use base_words::{put, word};
use grammar_table::Table;
use match_eval::memory::{BYTES, Memory};
use match_parts::Lists;
use match_plan::Plan;

// The word with bit k too.
fn with(w: u64, k: usize) -> u64
    requires { k < 64 }
    ensures { result ≡ bit_or w (2 ^ k) }
{
    w | 1 << k
}

// Sets the cells of n symbols from i on to what is said of their bodies where byte b stands. The others keep what they have, which is never asked for; the
// answer has them all.
fn preset(t: &Table, cells: &mut [u32], mem: &Memory, n: usize, b: usize, i: usize) -> u64
    requires { (n ≤ 64) × (i < 4294967296) }
    ensures { (cells.new ≡ preset_of t.now mem.now b i n cells.old)
        × Open t.now mem.now b 0 n result }
{
    let mut open: u64 = 0;
    for r in (0..n).rev() {
        let x = grammar_table::records::body(t, r);
        let w = match_eval::memory::said(mem, x, b);
        if w != 0 {
            put(cells, i + r, w - 1);
        } else {
            open = with(open, r);
        }
    }
    open
}

// Fills the cell of symbol r at p.
fn store(t: &Table, s: &[u8], cells: &mut [u32], mem: &Memory, n: usize, r: usize, p: usize)
    requires { ((n ≡ symbol_count t.now) × (n ≤ 64) × (r < n) × (length s.now ≤ 65535) × (p ≤ length s.now))
        × Knows t.now s.now cells.old n mem.now (p + 1) p }
    ensures { (cells.new
        ≡ set cells.old (p * length (bodies_of t.now) + r)
        (body_takes (bodies_of t.now) s.now cells.old r p))
        × Knows t.now s.now cells.new n mem.now (p + 1) p }
{
    let x = grammar_table::records::body(t, r);
    let v = match_eval::eval_with(t, s, cells, mem, n, x, p);
    put(cells, p * n + r, v);
}

// Fills the cells of all symbols at p: what is decided at once, the others in an order that puts first-called symbols first.
fn place(t: &Table, s: &[u8], cells: &mut [u32], mem: &Memory, order: &[u32], n: usize, p: usize)
    requires { ((n ≡ symbol_count t.now) × (n ≤ 64) × ((j : ℕ) → j < n → get_or order.now j 0 < n) × (length s.now ≤ 65535) × (p ≤ length s.now))
        × ((plan : List ℕ) × Settable mem.now plan s.now n (length cells.old)) × Knows t.now s.now cells.old n mem.now (p + 1) (p + 1) }
    ensures { (cells.new
        ≡ row_of (bodies_of t.now) s.now p (words_from order.now 0 n)
        (preset_of t.now mem.now (byte_at s.now p) (p * n) n cells.old))
        × Knows t.now s.now cells.new n mem.now (p + 1) p }
{
    let b = match_eval::byte_at(s, p);
    let open = preset(t, cells, mem, n, b, p * n);
    for j in 0..n {
        let r = word(order, j);
        if lake_calls::has(open, r) {
            store(t, s, cells, mem, n, r, p);
        }
    }
}

// Where the record of byte b begins in the plan, if there is one.
fn record_at(plan: &Plan, b: usize) -> Option<usize>
    ensures { MatchOption result (record_of plan.now b ≡ 0) (λ o. (o ≡ record_of plan.now b) × (0 < o) × (o < 4294967296)) }
{
    if BYTES <= b {
        return None;
    }
    let o = word(plan, b);
    if o == 0 { None } else { Some(o) }
}

// Fills the cells of all places, the last first (01: "for p from 0 to n"), and remembers the rounds of each key at each place: by the record of the byte that
// stands there, or by the memory.
fn rows(
    t: &Table,
    s: &[u8],
    cells: &mut [u32],
    mem: &mut Memory,
    order: &[u32],
    plan: &Plan,
    lists: &Lists,
)
    requires { Fillable t.now s.now cells.old mem.old order.now plan.now lists.now (symbol_count t.now) (length s.now + 1) }
    ensures { (cells.new
        ≡ fill_by t.now mem.old plan.now (bodies_of t.now) s.now
        (symbol_count t.now) (length s.now + 1) (words_from order.now 0 (symbol_count t.now)) cells.old)
        × Knows t.now s.now cells.new (symbol_count t.now) mem.new 0 0 }
{
    let n = grammar_table::records::symbols(t);
    for i in (0..s.len() + 1).rev() {
        let b = match_eval::byte_at(s, i);
        match record_at(plan, b) {
            Some(o) => tasks::place_by(t, s, cells, mem, plan, lists, Place { n, o, p: i }),
            None => {
                place(t, s, cells, mem, order, n, i);
                match_rounds::learn_all(t, s, cells, mem, n, i);
            }
        }
    }
}

// Whether plan and lists are right, where there are cells for every place.
fn usable(
    t: &[u32],
    mem: &[u32],
    order: &[u32],
    n: usize,
    plan: &Plan,
    lists: &Lists,
    full: bool,
) -> bool
    requires { n ≤ 64 }
    ensures { result ≡ true → (full ≡ true) × Planned t.now mem.now order.now n plan.now
        × AllListed t.now mem.now n lists.now }
{
    full && match_plan::checked(t, mem, order, n, plan) && match_parts::checked(t, mem, n, lists)
}

// Such a plan stays, any other loses its records.
fn keep_right(
    t: &[u32],
    mem: &[u32],
    order: &[u32],
    n: usize,
    plan: &mut Plan,
    lists: &Lists,
    full: bool,
)
    requires { n ≤ 64 }
    ensures { Planned t.now mem.now order.now n plan.new
        × ((b : ℕ) → (record_of plan.new b ≡ 0 → ⊥) → (full ≡ true) × AllListed t.now mem.now n lists.now) }
{
    if !usable(t, mem, order, n, plan, lists, full) {
        *plan = [0; match_plan::WORDS];
    }
}

// The same for every place, with a key for each repeated part, what bytes decide, and nothing remembered at first.
fn rows_in(t: &Table, s: &[u8], cells: &mut [u32], mem: &mut Memory, order: &[u32], n: usize)
    requires { ((n ≡ symbol_count t.now) × (n ≤ 64) × ((j : ℕ) → j < n → get_or order.now j 0 < n) × (length s.now ≤ 65535))
        × Fresh t.now mem.old }
    ensures { FilledBy t.now (bodies_of t.now) s.now n (words_from order.now 0 n) cells.old
        cells.new
        × Knows t.now s.now cells.new n mem.new 0 0 }
{
    match_keys::enter_all(t, mem);
    match_firsts::decide_all(t, s, mem, order, n, cells.len());
    let mut lists: Lists = [0; match_parts::WORDS];
    match_parts::list_all(t, mem, n, &mut lists);
    let mut plan: Plan = [0; match_plan::WORDS];
    match_plan::plan_all(t, mem, order, n, &mut plan);
    let full = (s.len() + 1) * n <= cells.len();
    keep_right(t, mem, order, n, &mut plan, &lists, full);
    rows(t, s, cells, mem, order, &plan, &lists);
}

// Fills the cells of a table on a text, for every symbol and every position from 0 to the text's length. The memory, lent with nothing but 0, says
// afterwards what evaluation over these cells need not do again.
pub fn fill(t: &Table, s: &[u8], cells: &mut [u32], mem: &mut Memory)
    requires { ((symbol_count t.now ≤ 64) × (length s.now ≤ 65535)) × Fresh t.now mem.old }
    ensures { Fills t.now s.now cells.old cells.new
        × Knows t.now s.now cells.new (symbol_count t.now) mem.new 0 0 }
{
    let mut marks = [false; 64];
    let mut next = [false; 64];
    let mut calls: [u64; 64] = [0; 64];
    let mut ranks: [usize; 64] = [0; 64];
    let mut order: [u32; 64] = [0; 64];
    let n = grammar_table::records::symbols(t);
    let k = lake_calls::ordering::order_front(
        t, n, &mut marks, &mut next, &mut calls, &mut ranks, &mut order,
    );
    rows_in(t, s, cells, mem, &order, n);
}
