// Rounds that the byte at their place decides: they take just this byte, and list one node or none (01, Meaning of a match). Such rounds are most of what a
// lake passes over, and the list needs no walk for them.
#![tactic(auto)]
// The table, the memory and the desk are handed on one by one, and no struct holds them: the desk is lent to write while lanes are laid, to read elsewhere.

ghost use Rattle.std.specs.Prelude.{◌+◌, ◌*◌, ◌≤◌, ◌<◌, ◌≡◌, true};
ghost use Rattle.grammar_table.specs.Table.{expression_count};
ghost use Rattle.match_desk.specs.steps.Desk.{Desk};
ghost use Rattle.match_lone.specs.steps.Lone.{Settled, Single, Lone, Repeated};
ghost use Rattle.match_lone.specs.steps.Lanes.{code_of, Told, Tells, Laid, Among};

use base_words::{put, word};
use grammar_table::{Table, records};
use match_desk::{LANE_OF_AT, LANES_AT, PARENTS_AT, Seen, look};
use match_eval::memory::{BYTES, Memory, SEEN_AT, said};

// What a round that takes just a byte lists: no node, or that of a symbol.
#[derive(Clone, Copy)]
pub enum Round {
    Silent,
    Node(usize),
}

// More symbols no grammar has, and no more expressions.
const SYMBOLS: usize = 64;

const EXPRESSIONS: usize = 2048;
// What is said of a part that fails, and of one that takes just the byte.
const FAILS: usize = 1;

const TAKES: usize = 3;
// What bytes decide is laid out for the first repeated parts that list nodes, as many as there are lanes.
const LANES: usize = 4;
// A word of a lane: this times the part it is about, and the code of what is said of it; 0 says nothing. Words of the desk are numbers: its memory is fixed.
const ABOUT: usize = 8192;
// The codes: the byte does not decide a round; it lists no node; from here on, that of a symbol. Greater ones are none.
const UNDECIDED: usize = 1;

const SILENT: usize = 2;

const NODE: usize = 3;

const CODES: usize = 4096;

// What stands for x where byte b stands, if the byte decides that x takes just this byte: of a choice that lists nodes an alternative, else x itself.
fn settle(t: &Table, mem: &Memory, desk: &[u32], x: usize, b: usize) -> Option<usize>
    requires { x < 2048 }
    ensures { Settled t.now mem.now b x result }
{
    if said(mem, x, b) != TAKES {
        return None;
    }
    if x == 0 || word(desk, x) == 0 {
        return Some(x);
    }
    let Seen { op, y, z, .. } = look(t, x);
    if op != grammar_table::CHOICE {
        return Some(x);
    }
    if said(mem, y, b) == FAILS {
        return settle(t, mem, desk, z, b);
    }
    settle(t, mem, desk, y, b)
}

// Whether the node of symbol r is all that it lists where byte b stands.
fn single(t: &Table, mem: &Memory, desk: &[u32], r: usize, b: usize) -> bool
    ensures { result ≡ true → Single t.now mem.now desk.now b r }
{
    if r >= SYMBOLS {
        return false;
    }
    let z = records::body(t, r);
    if word(desk, z) == 0 {
        return true;
    }
    if z >= EXPRESSIONS {
        return false;
    }
    settle(t, mem, desk, z, b).is_some_and(|v| word(desk, v) == 0)
}

// What a round of the choice x lists where byte b stands, if the byte decides that it takes just this byte.
fn chosen(t: &Table, mem: &Memory, desk: &[u32], x: usize, b: usize) -> Option<Round>
    requires { x < 2048 }
    ensures { Lone t.now mem.now desk.now b x result }
{
    let y = settle(t, mem, desk, x, b)?;
    if word(desk, y) == 0 {
        return Some(Round::Silent);
    }
    if y == 0 {
        return None;
    }
    let Seen { op, left, .. } = look(t, y);
    if op == grammar_table::SYMBOL && single(t, mem, desk, left, b) {
        return Some(Round::Node(left));
    }
    None
}

// The same of any x. A repeat's part is most often a symbol, which needs no look at alternatives.
pub fn lone(t: &Table, mem: &Memory, desk: &[u32], x: usize, b: usize) -> Option<Round>
    requires { x < 2048 }
    ensures { Lone t.now mem.now desk.now b x result }
{
    if said(mem, x, b) != TAKES {
        return None;
    }
    if word(desk, x) == 0 {
        return Some(Round::Silent);
    }
    if x == 0 {
        return None;
    }
    let Seen { op, left, .. } = look(t, x);
    if op != grammar_table::SYMBOL {
        return chosen(t, mem, desk, x, b);
    }
    if single(t, mem, desk, left, b) {
        return Some(Round::Node(left));
    }
    None
}

// Whether x is the part of a repeat.
pub fn repeats(t: &Table, desk: &[u32], x: usize) -> bool
    requires { Desk t.now desk.now (expression_count t.now) × (expression_count t.now ≤ 1024) × (x < 4294967296) }
    ensures { result ≡ true → Repeated t.now desk.now x }
{
    let e = word(desk, PARENTS_AT + x);
    if e == 0 {
        return false;
    }
    matches!(look(t, e).op, grammar_table::STAR | grammar_table::PLUS)
}

// ── lanes: what `lone` says of a part and a byte, looked up ──

// The code of what a byte decides of a round.
fn code(r: Option<Round>) -> usize
    requires { code_of r < 4294967296 }
    ensures { result ≡ code_of r }
{
    match r {
        None => UNDECIDED,
        Some(Round::Silent) => SILENT,
        Some(Round::Node(symbol)) => NODE + symbol,
    }
}

// The word for byte b in the lane of part x. Of bytes that are not in the text it says nothing.
fn lane_word(t: &Table, mem: &Memory, desk: &[u32], x: usize, b: usize) -> usize
    requires { Desk t.now desk.now (expression_count t.now) × (x ≤ 1024) × (b < 256) }
    ensures { (result < 4294967296) × Tells t.now mem.now b result }
{
    if word(mem, SEEN_AT + b) == 0 {
        return 0;
    }
    ABOUT * x + code(lone(t, mem, desk, x, b))
}

// One word more, of lane k.
fn lay_byte(t: &Table, mem: &Memory, desk: &mut [u32], x: usize, k: usize, b: usize)
    requires { Desk t.now desk.old (expression_count t.now) × (expression_count t.now ≤ 1024) × (x ≤ 1024) × (k < 8) × (b < 256)
        × Laid t.now mem.now desk.old (256 * k + b) }
    ensures { Desk t.now desk.new (expression_count t.now)
        × Laid t.now mem.now desk.new (256 * k + b + 1) }
{
    let w = lane_word(t, mem, desk, x, b);
    put(desk, LANES_AT + (BYTES * k + b), w);
}

// Lane k, for part x.
fn lay_part(t: &Table, mem: &Memory, desk: &mut [u32], x: usize, k: usize)
    requires { Desk t.now desk.old (expression_count t.now) × (expression_count t.now ≤ 1024) × (x ≤ 1024) × (k < 8)
        × Laid t.now mem.now desk.old (256 * k) }
    ensures { Desk t.now desk.new (expression_count t.now)
        × Laid t.now mem.now desk.new (256 * k + 256) }
{
    for b in 0..BYTES {
        lay_byte(t, mem, desk, x, k, b);
    }
}

// The same if x is a repeated part that lists nodes and there is a lane left; the number of lanes that are laid.
fn lay_repeat(t: &Table, mem: &Memory, desk: &mut [u32], x: usize, k: usize) -> usize
    requires { Desk t.now desk.old (expression_count t.now) × (expression_count t.now ≤ 1024) × (x ≤ 1024) × (k ≤ 8)
        × Laid t.now mem.now desk.old (256 * k) }
    ensures { Desk t.now desk.new (expression_count t.now)
        × Laid t.now mem.now desk.new (256 * result) × (result ≤ 8) }
{
    if k >= LANES || word(desk, x) == 0 || !repeats(t, desk, x) {
        return k;
    }
    lay_part(t, mem, desk, x, k);
    put(desk, LANE_OF_AT + x, k);
    k + 1
}

// The lanes of all repeated parts, as far as they go: how many words are laid.
pub fn lay_all(t: &Table, mem: &Memory, desk: &mut [u32]) -> usize
    requires { Desk t.now desk.old (expression_count t.now) × (expression_count t.now ≤ 1024) }
    ensures { Desk t.now desk.new (expression_count t.now)
        × Laid t.now mem.now desk.new result }
{
    let mut k = 0;
    for e in 0..records::expressions(t) {
        k = lay_repeat(t, mem, desk, e + 1, k);
    }
    BYTES * k
}

// The word for byte b in the lane of part x, if it is among the first ones; else 0. Any lane would do, for a word says what it is about.
fn lane_at(desk: &[u32], laid: usize, x: usize, b: usize) -> usize
    requires { x < 2048 }
    ensures { (0 < result → Among desk.now laid b result) × (result < 4294967296) }
{
    if b >= BYTES {
        return 0;
    }
    let i = BYTES * word(desk, LANE_OF_AT + x) + b;
    if i < laid {
        word(desk, LANES_AT + i)
    } else {
        0
    }
}

// What byte b decides of a round of x, looked up if it is laid out.
pub fn lane_of(
    t: &Table,
    mem: &Memory,
    desk: &[u32],
    laid: usize,
    x: usize,
    b: usize,
) -> Option<Round>
    requires { Desk t.now desk.now (expression_count t.now) × (x < 2048) × Laid t.now mem.now desk.now laid }
    ensures { Told t.now mem.now b x result }
{
    let w = lane_at(desk, laid, x, b);
    let about = ABOUT * x;
    if w <= about || w > about + CODES {
        return lone(t, mem, desk, x, b);
    }
    match w - about {
        UNDECIDED => None,
        SILENT => Some(Round::Silent),
        k => Some(Round::Node(k - NODE)),
    }
}
