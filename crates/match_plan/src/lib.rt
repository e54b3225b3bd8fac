// What is done where a byte stands, listed once a byte (01, Meaning of a match). Few bytes stand at the many places of a text: what the memory says of one is
// looked up once, and not for each symbol and each key at each place. Of how the lists are made nothing is promised: they are checked when they are made, and a
// plan that is not right is not used.
#![tactic(auto)]

ghost use Rattle.std.specs.Prelude.{ℕ, ◌+◌, ◌≤◌, ◌<◌, ◌≡◌, true, get_or};
ghost use Rattle.match_eval.specs.steps.Firsts.{word_of};
ghost use Rattle.match_plan.specs.steps.Plan.{Recorded, Planned};
ghost use Rattle.match_plan.specs.steps.Checked.{Cell, Opens, Task, Taker, Right};

use base_words::{put, word};
use grammar_table::records;
use match_eval::memory::{BYTES, COUNT, PARTS, PARTS_AT, SEEN_AT, key, said};

// A word for each byte, where its record begins; then the records (specs/steps/Plan.antt).
pub const WORDS: usize = 5120;

pub type Plan = [u32; WORDS];

// Behind the cells of a record: how many symbols are open, how many tasks there are, the tasks.
pub const TASKS: usize = 1;

pub const FIRST_TASK: usize = 2;

// A task from here on is a key: no grammar has more symbols.
pub const KEYS: usize = 64;

// What is said of a part that takes just the byte.
pub const JUST: usize = 3;

// What plans are made of and checked by: a table of n symbols, what the memory says of its parts, the order in which bodies are evaluated.
#[derive(Clone, Copy)]
struct Sight<'a> {
    table: &'a [u32],
    mem: &'a [u32],
    order: &'a [u32],
    n: usize,
    ghost few: { n ≤ 64 },
}

impl Sight<'_> {
    // What is said of the body of symbol r where byte b stands.
    fn heard(&self, r: usize, b: usize) -> usize
        requires { r < 4294967296 }
        ensures { let f = self.now in result ≡ word_of f.table.now f.mem.now b r }
    {
        said(self.mem, records::body(self.table, r), b)
    }

    // ── made; nothing is promised, but that each ends and stays within its words ──

    // The cells of a record at o: what is said of the symbols' bodies where byte b stands. Where nothing is said the cell stays as it is.
    fn put_row(&self, b: usize, plan: &mut Plan, o: usize)
        requires { o ≤ 5120 }
    {
        for r in 0..self.n {
            let w = self.heard(r, b);
            if w != 0 {
                put(plan, o + r, w - 1);
            }
        }
    }

    // The open symbols where byte b stands, in their order from i on; the place behind.
    fn put_opens(&self, b: usize, plan: &mut Plan, i: usize) -> usize
        requires { i ≤ 5120 }
        ensures { (i ≤ result) × (result ≤ i + self.now.n) }
    {
        let mut at = i;
        for j in 0..self.n {
            let r = word(self.order, j);
            if self.heard(r, b) == 0 {
                put(plan, at, r);
                at += 1;
            }
        }
        at
    }

    // Of the first d keys those of whose part w is said there, listed from i on, each with a number added; the place behind.
    fn put_keys(&self, d: usize, b: usize, w: usize, add: usize, plan: &mut Plan, i: usize) -> usize
        requires { (d ≤ 5120) × (add ≤ 64) × (i ≤ 5120) }
        ensures { (i ≤ result) × (result ≤ i + d) }
    {
        let mut at = i;
        for k in 0..d {
            let y = word(self.mem, PARTS_AT + k);
            if said(self.mem, y, b) == w {
                put(plan, at, add + k);
                at += 1;
            }
        }
        at
    }

    // The record of byte b at a place; the place behind. Where it might not fit none is made: what it would say is then looked up.
    fn put_record(&self, b: usize, plan: &mut Plan, at: usize) -> usize
        requires { at ≤ 5120 }
        ensures { result ≤ 5120 }
    {
        let n = self.n;
        let d = word(self.mem, COUNT);
        if WORDS < at + 2 * n + 2 * d + 3 {
            return at;
        }
        put(plan, b, at);
        self.put_row(b, plan, at);
        let tasks = at + n + FIRST_TASK;
        let keys = self.put_opens(b, plan, tasks);
        put(plan, at + n, keys - tasks);
        let takers = self.put_keys(d, b, 0, KEYS, plan, keys);
        put(plan, at + n + TASKS, takers - tasks);
        let end = self.put_keys(d, b, JUST, 0, plan, takers + 1);
        put(plan, takers, end - takers - 1);
        end
    }

    // ── checked ──

    // Whether the cell of symbol r is what is said of its body, if something is.
    fn cell_right(&self, b: usize, plan: &Plan, o: usize, r: usize) -> bool
        requires { (o ≤ 5120) × (r ≤ 64) }
        ensures { let f = self.now in result ≡ true → Cell f.table.now f.mem.now b plan.now o r }
    {
        let w = self.heard(r, b);
        w == 0 || word(plan, o + r) + 1 == w
    }

    // Whether all n cells are. A loop: of a chain the proof does not find the item under `o + r`.
    fn row_right(&self, b: usize, plan: &Plan, o: usize) -> bool
        requires { o ≤ 5120 }
        ensures { let f = self.now in result ≡ true → (r : ℕ) → r < f.n → Cell f.table.now f.mem.now b plan.now o r }
    {
        for r in 0..self.n {
            if !self.cell_right(b, plan, o, r) {
                return false;
            }
        }
        true
    }

    // Whether the m words from i on are the open symbols in their order.
    fn opens_right(&self, b: usize, plan: &Plan, i: usize, m: usize) -> bool
        requires { i ≤ 8192 }
        ensures { let f = self.now in result ≡ true → Opens f.table.now f.mem.now f.order.now f.n b plan.now i f.n m }
    {
        let mut k = 0;
        for j in 0..self.n {
            let r = word(self.order, j);
            let heard = self.heard(r, b);
            if heard == 0 {
                if self.n <= r || word(plan, i + k) != r {
                    return false;
                }
                k += 1;
            }
        }
        k == m
    }

    // Whether each task from lo on, below hi, is a key. A loop, for the same reason as those beside it.
    fn keys_right(&self, plan: &Plan, i: usize, lo: usize, hi: usize) -> bool
        requires { (i ≤ 8192) × (hi < 4294967296) }
        ensures { result ≡ true → (j : ℕ) → j < hi → lo ≤ j → Task self.now.mem.now (get_or plan.now (i + j) 0) }
    {
        let d = word(self.mem, COUNT);
        for j in lo..hi {
            let x = word(plan, i + j);
            if x < KEYS || KEYS + d <= x {
                return false;
            }
        }
        true
    }

    // Whether the part of key k + 1 takes just byte b where it stands.
    fn takes_byte(&self, b: usize, k: usize) -> bool
        ensures { result ≡ true → Taker self.now.mem.now b k }
    {
        if PARTS <= k {
            return false;
        }
        let y = word(self.mem, PARTS_AT + k);
        let w = said(self.mem, y, b);
        w == JUST && key(self.mem, y) == Some(k + 1)
    }

    // Whether those of all m words from i on do.
    fn takers_right(&self, b: usize, plan: &Plan, i: usize, m: usize) -> bool
        requires { (i < 8589934592) × (m < 4294967296) }
        ensures { let f = self.now in result ≡ true → (j : ℕ) → j < m → Taker f.mem.now b (get_or plan.now (i + j) 0) }
    {
        (0..m).all(|j| self.takes_byte(b, word(plan, i + j)))
    }

    // Whether the record at o is that of byte b.
    fn record_right(&self, b: usize, plan: &Plan, o: usize) -> bool
        requires { o < 4294967296 }
        ensures { let f = self.now in result ≡ true → Recorded f.table.now f.mem.now f.order.now f.n plan.now b o }
    {
        let n = self.n;
        if WORDS < o + n {
            return false;
        }
        let i = o + n + FIRST_TASK;
        let m = word(plan, o + n);
        let c = word(plan, o + n + TASKS);
        let k = word(plan, i + c);
        m <= c
            && self.row_right(b, plan, o)
            && self.opens_right(b, plan, i, m)
            && self.keys_right(plan, i, m, c)
            && self.takers_right(b, plan, i + c + 1, k)
    }

    // Whether byte b has no record or a right one.
    fn byte_right(&self, b: usize, plan: &Plan) -> bool
        ensures { let f = self.now in result ≡ true → Right f.table.now f.mem.now f.order.now f.n plan.now b }
    {
        let o = word(plan, b);
        o == 0 || self.record_right(b, plan, o)
    }
}

// The records of the bytes of the text, one behind the other.
pub fn plan_all(t: &[u32], mem: &[u32], order: &[u32], n: usize, plan: &mut Plan)
    requires { n ≤ 64 }
{
    let sight = Sight {
        table: t,
        mem,
        order,
        n,
    };
    let mut at = BYTES;
    for b in 0..BYTES {
        if word(mem, SEEN_AT + b) != 0 {
            at = sight.put_record(b, plan, at);
        }
    }
}

// Whether the plan says what the memory says.
pub fn checked(t: &[u32], mem: &[u32], order: &[u32], n: usize, plan: &Plan) -> bool
    requires { n ≤ 64 }
    ensures { result ≡ true → Planned t.now mem.now order.now n plan.now }
{
    let sight = Sight {
        table: t,
        mem,
        order,
        n,
    };
    (0..BYTES).all(|b| sight.byte_right(b, plan))
}
