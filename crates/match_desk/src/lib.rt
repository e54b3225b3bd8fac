// What the list keeps in words of its own: which expressions hold a symbol, the symbol's use that was entered on each level, what bytes decide of rounds (the
// lanes, which others lay), and each expression's parent. Parents serve in place of a stack of tasks, since in a table of a grammar no expression is a part
// twice. Expressions are 1 + their number; 0 is none.
#![tactic(auto)]

ghost use Rattle.std.specs.Prelude.{◌+◌, ◌-◌, ◌≤◌, ◌<◌, ◌≡◌, max, set};
ghost use Rattle.grammar_table.specs.Table.{expression_count};
ghost use Rattle.match_desk.specs.steps.Desk.{Forest, Desk, mark_of, parents_at};
ghost use Rattle.match_desk.specs.steps.Parts.{Made};

use base_words::{put, word};
use grammar_table::{part, records};

// No heap, fixed memory. Marks, one for each expression, stand first; then the returns, one for each level; the lanes, 4 of 256 words, and each
// expression's lane; and the parents.
pub const RETURNS_AT: usize = 1025;

pub const LANES_AT: usize = 1282;

pub const LANE_OF_AT: usize = 2306;

pub const PARENTS_AT: usize = 3331;

pub const WORDS: usize = 4356;

// The mark of an expression that holds a symbol outside guards. 0: it lists no node.
const HOLDS: usize = 1;

// An expression's kind, its left word and its parts.
#[derive(Clone, Copy)]
pub struct Seen {
    pub op: usize,
    pub left: usize,
    pub y: usize,
    pub z: usize,
}

// Expression x - 1 of a table: its kind and its parts, as evaluation goes to them.
pub fn look(t: &[u32], x: usize) -> Seen
    requires { (0 < x) × (x < 2048) }
    ensures { Made t.now x result.op result.left result.y result.z }
{
    let e = x - 1;
    let left = records::left(t, e);
    let right = records::right(t, e);
    Seen {
        op: records::op(t, e),
        left,
        y: part(left, e),
        z: part(right, e),
    }
}

// x has one part: it holds what the part holds.
fn adopt(desk: &mut [u32], x: usize, y: usize)
    requires { (x ≤ 1024) × (y ≤ 1024) }
    ensures { desk.new ≡ set (set desk.old x (mark_of desk.old y)) (parents_at + y) x }
{
    let mark = word(desk, y);
    put(desk, x, mark);
    put(desk, PARENTS_AT + y, x);
}

// x has two: it holds what one of them holds.
fn adopt_both(desk: &mut [u32], x: usize, y: usize, z: usize)
    requires { (x ≤ 1024) × (y ≤ 1024) × (z ≤ 1024) }
    ensures { desk.new ≡ set (set (set desk.old x (max (mark_of desk.old y) (mark_of desk.old z))) (parents_at + y) x) (parents_at + z) x }
{
    let mark = word(desk, y).max(word(desk, z));
    put(desk, x, mark);
    put(desk, PARENTS_AT + y, x);
    put(desk, PARENTS_AT + z, x);
}

// One expression more.
fn learn(t: &[u32], desk: &mut [u32], x: usize)
    requires { (0 < x) × (x ≤ expression_count t.now) × (expression_count t.now ≤ 1024) × Forest t.now × Desk t.now desk.old (x - 1) }
    ensures { Desk t.now desk.new x }
{
    let Seen { op, y, z, .. } = look(t, x);
    match op {
        grammar_table::SYMBOL => put(desk, x, HOLDS),
        grammar_table::SEQUENCE | grammar_table::CHOICE => adopt_both(desk, x, y, z),
        grammar_table::OPTION | grammar_table::STAR | grammar_table::PLUS => adopt(desk, x, y),
        _ => {}
    }
}

// All of them, parts before wholes.
pub fn learn_all(t: &[u32], desk: &mut [u32])
    requires { (expression_count t.now ≤ 1024) × Forest t.now × Desk t.now desk.old 0 }
    ensures { Desk t.now desk.new (expression_count t.now) }
{
    for e in 0..records::expressions(t) {
        learn(t, desk, e + 1);
    }
}
