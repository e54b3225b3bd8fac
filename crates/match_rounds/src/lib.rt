// Rounds that are remembered: at each place that is done, entries for each key (01, Meaning of a match). What the words of the memory are: match_eval.
// Table, text and cells are parameters, as there: the memory is written between two reads, so that a struct of what is lent would be made anew for each.
#![tactic(auto)]

ghost use Rattle.std.specs.Prelude.{ℕ, ◌+◌, ◌<◌, ◌≤◌, ◌≡◌, get_or, length};
ghost use Rattle.grammar_table.specs.Trees.{tree_of};
ghost use Rattle.match_eval.specs.Eval.{ev};
ghost use Rattle.match_eval.specs.steps.Firsts.{byte_at};
ghost use Rattle.match_plan.specs.steps.Plan.{Takes};
ghost use Rattle.match_eval.specs.steps.Memory.{Knows, Front, About, end_of};
ghost use Rattle.match_rounds.specs.steps.Noted.{Noted, GoesOn};

use base_words::{put, word};
use grammar_table::Table;
use match_eval::memory::{
    COUNT, Entry, Memory, PARTS_AT, PLACES, RUNS, TEXT, begins, block, entry_at, key, said, says,
    slot,
};
use match_plan::Plan;

// Entry i says from now on that rounds of key k take c bytes from p on.
fn note(mem: &mut Memory, i: usize, k: usize, p: usize, c: usize)
    requires { (i < 4294967296) × (k ≤ 1025) × (p ≤ 65535) × (c ≤ 65535) }
    ensures { Noted k p c mem.old mem.new }
{
    let entry = Entry {
        first: k * TEXT + p,
        past: p + 1,
        end: p + c,
    };
    entry.write(mem, i);
}

// The run of entry i, which is about the place behind p, begins at p.
fn lengthen(mem: &mut Memory, i: usize, k: usize, p: usize)
    requires { ((i < 4294967296) × (k ≤ 1025) × (p < 65535)) × About mem.old i k (p + 1) }
    ensures { (c : ℕ) → end_of mem.old i ≡ p + c → Noted k p c mem.old mem.new }
{
    put(mem, entry_at(i), k * TEXT + p);
}

// Entry m says what entry i says.
fn copy(mem: &mut Memory, m: usize, i: usize)
    requires { (m < 4294967296) × (i < 4294967296) }
    ensures { (k p c : ℕ) → Noted k p c mem.old mem.new }
{
    let entry = Entry::read(mem, i);
    entry.write(mem, m);
}

// The newest run of key k has come to p: where a block begins there, the block's entry says what the run's says.
fn keep_block(mem: &mut Memory, k: usize, p: usize)
    requires { (0 < k) × (k ≤ 1025) × (p ≤ 65535) }
    ensures { (i q c : ℕ) → Noted i q c mem.old mem.new }
{
    let w = word(mem, PLACES);
    if p * w % TEXT == 0 {
        let m = block(mem, k, p);
        copy(mem, m, RUNS + k);
    }
}

// Whether the newest run of key k begins behind p: then it goes on to p. Asked only where the first round from p on is just its byte.
fn go_on(mem: &mut Memory, k: usize, p: usize) -> bool
    requires { (0 < k) × (k ≤ 1025) × (p < 65535) }
    ensures { GoesOn k p mem.old mem.new result }
{
    let i = RUNS + k;
    let goes = begins(mem, i, k, p + 1);
    if goes {
        lengthen(mem, i, k, p);
        keep_block(mem, k, p);
    }
    goes
}

// The newest run of key k goes on to p, from where rounds take c bytes, or a new one begins there.
fn run_on(mem: &mut Memory, k: usize, p: usize, c: usize)
    requires { (k ≤ 1025) × (p < 65535) × (0 < c) × (c ≤ 65535) }
    ensures { Noted k p c mem.old mem.new }
{
    let i = RUNS + k;
    if says(mem, i, k, p + 1) == Some(c - 1) {
        lengthen(mem, i, k, p);
    } else {
        note(mem, i, k, p, c);
    }
}

// Rounds of key k take c bytes from p on, the first of them perhaps more than one: that is kept for p itself too, and for its block, so that the list, which
// comes back when the places in between are forgotten, walks no further than to a block that it passes this way.
fn remember(mem: &mut Memory, k: usize, p: usize, c: usize)
    requires { (0 < k) × (k ≤ 1025) × (p < 65535) × (0 < c) × (c ≤ 65535) }
    ensures { Noted k p c mem.old mem.new }
{
    let i = slot(mem, k, p);
    note(mem, i, k, p, c);
    let m = block(mem, k, p);
    note(mem, m, k, p, c);
    run_on(mem, k, p, c);
}

// The first round of part y from p on, as evaluation has it: 0 for none, else 1 + the bytes that it takes.
#[derive(Clone, Copy)]
pub struct First {
    pub y: usize,
    pub p: usize,
    pub a: usize,
}

// The rounds of a part, if it has a key, whose first is known. Where there is none, nothing need be remembered.
// Here and below the memory is lent to be written: in one struct with it each contract would have to say that table, text and cells stay as they are.
pub fn learn_first(t: &Table, s: &[u8], cells: &[u32], mem: &mut Memory, n: usize, first: First)
    requires { ((n ≤ 64) × (first.y < 4294967296) × (length s.now ≤ 65535) × (first.p ≤ length s.now)
        × (first.a ≡ ev s.now cells.now n (tree_of t.now first.y) first.p))
        × Knows t.now s.now cells.now n mem.old first.p first.p }
    ensures { Knows t.now s.now cells.now n mem.new first.p first.p
        × Front mem.old mem.new }
{
    if first.a <= 1 {
        return;
    }
    if let Some(k) = key(mem, first.y) {
        let c = match_eval::many_at(t, s, cells, mem, n, first.y, first.p + (first.a - 1));
        remember(mem, k, first.p, first.a - 1 + c);
    }
}

// The rounds of part y from p on, where the byte decides nothing.
fn learn_rounds(t: &Table, s: &[u8], cells: &[u32], mem: &mut Memory, n: usize, y: usize, p: usize)
    requires { ((n ≤ 64) × (y < 4294967296) × (length s.now ≤ 65535) × (p ≤ length s.now)) × Knows t.now s.now cells.now n mem.old p p }
    ensures { Knows t.now s.now cells.now n mem.new p p × Front mem.old mem.new }
{
    let a = match_eval::part_at(t, s, cells, mem, n, y, p);
    learn_first(t, s, cells, mem, n, First { y, p, a });
}

// The same where the byte decides that the first round is just this byte: most often the newest run goes on.
fn learn_byte(t: &Table, s: &[u8], cells: &[u32], mem: &mut Memory, n: usize, y: usize, p: usize)
    requires { ((n ≤ 64) × (y < 4294967296) × (length s.now ≤ 65535) × (p < length s.now) × (ev s.now cells.now n (tree_of t.now y) p ≡ 2))
        × Knows t.now s.now cells.now n mem.old p p }
    ensures { Knows t.now s.now cells.now n mem.new p p × Front mem.old mem.new }
{
    if let Some(k) = key(mem, y) {
        if !go_on(mem, k, p) {
            let c = match_eval::many_at(t, s, cells, mem, n, y, p + 1);
            note(mem, RUNS + k, k, p, c + 1);
        }
    }
}

// The same for key k + 1 by the plan: its part is asked for only where the run does not go on.
fn run_byte(t: &Table, s: &[u8], cells: &[u32], mem: &mut Memory, n: usize, k: usize, p: usize)
    requires { ((n ≤ 64) × (k < 1025) × (length s.now ≤ 65535) × (p ≤ length s.now) × Takes mem.old (byte_at s.now p) k)
        × Knows t.now s.now cells.now n mem.old p p }
    ensures { Knows t.now s.now cells.now n mem.new p p × Front mem.old mem.new }
{
    if !go_on(mem, k + 1, p) {
        let y = word(mem, PARTS_AT + k);
        learn_byte(t, s, cells, mem, n, y, p);
    }
}

// The rounds of part y from p on, if it has a key; where the byte decides that there is none, nothing need be remembered.
fn learn(t: &Table, s: &[u8], cells: &[u32], mem: &mut Memory, n: usize, y: usize, p: usize)
    requires { ((n ≤ 64) × (y < 4294967296) × (length s.now ≤ 65535) × (p ≤ length s.now)) × Knows t.now s.now cells.now n mem.old p p }
    ensures { Knows t.now s.now cells.now n mem.new p p × Front mem.old mem.new }
{
    let b = match_eval::byte_at(s, p);
    let w = said(mem, y, b);
    if w == 0 {
        learn_rounds(t, s, cells, mem, n, y, p);
    } else if w == match_plan::JUST && p < s.len() {
        learn_byte(t, s, cells, mem, n, y, p);
    }
}

// The rounds of a part of each key.
pub fn learn_all(t: &Table, s: &[u8], cells: &[u32], mem: &mut Memory, n: usize, p: usize)
    requires { ((n ≤ 64) × (length s.now ≤ 65535) × (p ≤ length s.now)) × Knows t.now s.now cells.now n mem.old p p }
    ensures { Knows t.now s.now cells.now n mem.new p p × Front mem.old mem.new }
{
    for k in (0..word(mem, COUNT)).rev() {
        let y = word(mem, PARTS_AT + k);
        learn(t, s, cells, mem, n, y, p);
    }
}

// The keys that a plan lists from i on, d of them, each of which takes just the byte at p.
#[derive(Clone, Copy)]
pub struct Takers {
    pub i: usize,
    pub d: usize,
    pub p: usize,
}

// The rounds of such keys.
pub fn run_all(
    t: &Table,
    s: &[u8],
    cells: &[u32],
    mem: &mut Memory,
    plan: &Plan,
    n: usize,
    all: Takers,
)
    requires { ((n ≤ 64) × (all.i < 8589934592) × (all.d < 4294967296) × (length s.now ≤ 65535) × (all.p ≤ length s.now))
        × ((j : ℕ) → j < all.d → (get_or plan.now (all.i + j) 0 < 1025) × Takes mem.old (byte_at s.now all.p) (get_or plan.now (all.i + j) 0))
        × Knows t.now s.now cells.now n mem.old all.p all.p }
    ensures { Knows t.now s.now cells.now n mem.new all.p all.p × Front mem.old mem.new }
{
    for j in 0..all.d {
        let k = word(plan, all.i + j);
        run_byte(t, s, cells, mem, n, k, all.p);
    }
}
