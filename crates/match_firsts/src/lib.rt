// What a byte decides alone (01, Meaning of a match): an expression fails where it stands, takes nothing, or takes just this byte. What is decided is said in
// the memory and not evaluated there: most symbols fail at most bytes, and most rounds are one byte. What is not decided is evaluated, so that to decide less
// would do too.
#![tactic(auto)]

ghost use Rattle.std.specs.Prelude.{ℕ, suc, ◌+◌, ◌*◌, ◌<◌, ◌≤◌, ◌≡◌, true, IfSome, get_or, length};
ghost use Rattle.grammar.specs.Exp.{sym};
ghost use Rattle.grammar_table.specs.Table.{leaf_in};
ghost use Rattle.grammar_table.specs.Trees.{tree_of};
ghost use Rattle.match_eval.specs.steps.Firsts.{said_of, LeafSure, Sure, Guards};
ghost use Rattle.match_firsts.specs.steps.Taken.{taken_of};
ghost use Rattle.match_firsts.specs.steps.Firm.{Firm};
ghost use Rattle.match_eval.specs.steps.Memory.{Fresh, Ready, Roomy};

use base_words::{put, word};
use grammar_table::{AHEAD, CHOICE, OPTION, PLUS, SEQUENCE, STAR, SYMBOL, TERMINAL, part, records};
use match_eval::memory::{PARTS, SEEN_AT, said, say};

// What is decided: it fails, it takes nothing, or it takes the byte.
#[derive(Clone, Copy, PartialEq, Eq)]
pub enum Decided {
    Fails,
    Empty,
    Takes,
}

impl Decided {
    // As evaluation has it: 0 for failure, else 1 + the bytes taken.
    fn taken(self) -> usize
        ensures { result ≡ taken_of self }
    {
        match self {
            Decided::Fails => 0,
            Decided::Empty => 1,
            Decided::Takes => 2,
        }
    }
}

// What terminal x takes where byte b stands, if the byte alone decides it.
fn leaf_first(t: &[u32], x: usize, b: usize) -> Option<Decided>
    requires { (x < 4294967296) × (b < 256) }
    ensures { IfSome result (λ v. LeafSure b (leaf_in t.now x) (taken_of v)) }
{
    match records::leaf_kind(t, x) {
        grammar_table::ANY => Some(Decided::Takes),
        grammar_table::LITERAL => {
            let n = records::leaf_length(t, x);
            if n == 0 {
                Some(Decided::Empty)
            } else if records::leaf_word(t, x, 0) != b {
                Some(Decided::Fails)
            } else if n == 1 {
                Some(Decided::Takes)
            } else {
                None
            }
        }
        _ => {
            if records::leaf_word(t, x, b) == 0 {
                Some(Decided::Fails)
            } else {
                Some(Decided::Takes)
            }
        }
    }
}

// Whether expression x - 1 is a guard, which takes nothing.
fn guards(t: &[u32], x: usize) -> bool
    requires { x ≤ 4294967296 }
    ensures { result ≡ true → Guards (tree_of t.now x) }
{
    x != 0 && records::op(t, x - 1) >= AHEAD
}

// Whether expression x - 1 is an option or a star, which matches wherever it is tried.
fn firm(t: &[u32], x: usize) -> bool
    requires { x ≤ 4294967296 }
    ensures { result ≡ true → Firm (tree_of t.now x) }
{
    x != 0 && matches!(records::op(t, x - 1), OPTION | STAR)
}

// What is said of the parts of a table of n symbols where byte b stands.
#[derive(Clone, Copy)]
struct Sight<'a> {
    table: &'a [u32],
    mem: &'a [u32],
    n: usize,
    b: usize,
    ghost few: { n ≤ 64 },
    ghost byte: { b < 256 },
}

impl Sight<'_> {
    // What is said of part x, if something is.
    fn heard(&self, x: usize) -> Option<Decided>
        ensures { let f = self.now in IfSome result (λ v. said_of f.mem.now f.b x ≡ suc (taken_of v)) }
    {
        match said(self.mem, x, self.b) {
            1 => Some(Decided::Fails),
            2 => Some(Decided::Empty),
            3 => Some(Decided::Takes),
            _ => None,
        }
    }

    // The same, by what it takes.
    fn first(&self, x: usize) -> Option<Decided>
        requires { let f = self.now in Ready f.table.now f.n f.mem.now }
        ensures { let f = self.now in IfSome result (λ v. Sure f.table.now f.mem.now f.n f.b (tree_of f.table.now x) (taken_of v)) }
    {
        self.heard(x)
    }

    // What symbol r of n takes: what is said of its body.
    fn symbol_first(&self, r: usize) -> Option<Decided>
        ensures { let f = self.now in IfSome result (λ v. Sure f.table.now f.mem.now f.n f.b (sym r) (taken_of v)) }
    {
        if self.n <= r {
            return None;
        }
        self.heard(records::body(self.table, r))
    }

    // What expression x - 1, and `.` for 0, takes, by what is said of its parts.
    fn decide(&self, x: usize) -> Option<Decided>
        requires { let f = self.now in (x ≤ 4294967296) × Ready f.table.now f.n f.mem.now }
        ensures { let f = self.now in IfSome result (λ v. Sure f.table.now f.mem.now f.n f.b (tree_of f.table.now x) (taken_of v)) }
    {
        if x == 0 {
            return Some(Decided::Takes);
        }
        let t = self.table;
        let e = x - 1;
        let op = records::op(t, e);
        let l = records::left(t, e);
        if op == TERMINAL {
            return leaf_first(t, l, self.b);
        }
        if op == SYMBOL {
            return self.symbol_first(l);
        }
        let r = records::right(t, e);
        let y = part(l, e);
        let z = part(r, e);
        let left = self.first(y);
        match op {
            SEQUENCE => match left {
                Some(Decided::Fails) => Some(Decided::Fails),
                Some(Decided::Empty) => self.first(z),
                _ => match self.first(z) {
                    Some(Decided::Fails) if guards(t, y) => Some(Decided::Fails),
                    _ => None,
                },
            },
            CHOICE => match left {
                Some(Decided::Fails) => self.first(z),
                _ => left,
            },
            OPTION => match left {
                Some(Decided::Fails) => Some(Decided::Empty),
                _ => left,
            },
            STAR => match left {
                Some(Decided::Fails | Decided::Empty) => Some(Decided::Empty),
                _ => None,
            },
            PLUS => match left {
                Some(Decided::Takes) => None,
                _ => left,
            },
            AHEAD => match left {
                Some(Decided::Fails) => Some(Decided::Fails),
                Some(_) => Some(Decided::Empty),
                None if firm(t, y) => Some(Decided::Empty),
                None => None,
            },
            _ => match left {
                Some(Decided::Fails) => Some(Decided::Empty),
                Some(_) => Some(Decided::Fails),
                None if firm(t, y) => Some(Decided::Fails),
                None => None,
            },
        }
    }
}

// Says of part x what is decided where byte b stands. Here and below the memory is lent to be written: in one struct with it each contract would have to say
// that the table stays as it is.
fn decide_part(t: &[u32], mem: &mut [u32], n: usize, b: usize, x: usize)
    requires { ((n ≤ 64) × (b < 256)) × Ready t.now n mem.old }
    ensures { Ready t.now n mem.new }
{
    if x < PARTS {
        let sight = Sight {
            table: t,
            mem,
            n,
            b,
        };
        if let Some(v) = sight.decide(x) {
            say(mem, x, b, v.taken());
        }
    }
}

// The part of expression x that stands first among the expressions: parts come before wholes, the left ones first. The walk goes down, and counts nothing.
fn begin(t: &[u32], x: usize) -> usize
    requires { x < 4294967296 }
    ensures { result ≤ x }
{
    let mut y = x;
    while 0 < y {
        let e = y - 1;
        if records::op(t, e) <= SYMBOL {
            return y;
        }
        let l = records::left(t, e);
        y = part(l, e);
    }
    y
}

// The same for the body of symbol r, parts before wholes.
fn decide_body(t: &[u32], mem: &mut [u32], n: usize, b: usize, r: usize)
    requires { ((n ≤ 64) × (b < 256) × (r < 64)) × Ready t.now n mem.old }
    ensures { Ready t.now n mem.new }
{
    let last = records::body(t, r);
    for x in begin(t, last)..=last {
        decide_part(t, mem, n, b, x);
    }
}

// The same for all n symbols, those first that others begin with.
fn decide_bodies(t: &[u32], mem: &mut [u32], order: &[u32], n: usize, b: usize)
    requires { ((n ≤ 64) × (b < 256) × ((j : ℕ) → j < n → get_or order.now j 0 < n)) × Ready t.now n mem.old }
    ensures { Ready t.now n mem.new }
{
    for j in 0..n {
        decide_body(t, mem, n, b, word(order, j));
    }
}

// All this once for a byte, and the bodies twice: what a symbol does that stands behind in the order is known to the others only then.
fn decide_once(t: &[u32], mem: &mut [u32], order: &[u32], n: usize, b: usize)
    requires { ((n ≤ 64) × (b < 256) × ((j : ℕ) → j < n → get_or order.now j 0 < n)) × Ready t.now n mem.old }
    ensures { Ready t.now n mem.new }
{
    if word(mem, SEEN_AT + b) == 0 {
        put(mem, SEEN_AT + b, 1);
        decide_part(t, mem, n, b, 0);
        decide_bodies(t, mem, order, n, b);
        decide_bodies(t, mem, order, n, b);
    }
}

// The same for the bytes of a text.
fn decide_text(t: &[u32], s: &[u8], mem: &mut [u32], order: &[u32], n: usize)
    requires { ((n ≤ 64) × (length s.now ≤ 65535) × ((j : ℕ) → j < n → get_or order.now j 0 < n)) × Ready t.now n mem.old }
    ensures { Ready t.now n mem.new }
{
    for b in s {
        decide_once(t, mem, order, n, usize::from(*b));
    }
}

// The same, if there are cells for every place.
pub fn decide_all(t: &[u32], s: &[u8], mem: &mut [u32], order: &[u32], n: usize, have: usize)
    requires { ((n ≤ 64) × (length s.now ≤ 65535) × ((j : ℕ) → j < n → get_or order.now j 0 < n)) × Fresh t.now mem.old }
    ensures { Ready t.now n mem.new × Roomy mem.new s.now n have }
{
    if (s.len() + 1) * n <= have {
        decide_text(t, s, mem, order, n);
    }
}
