// Expressions as text, with the parentheses that are needed (01, Writing).
#![tactic(auto)]

ghost use Rattle.std.specs.Prelude.{◌≡◌, ℕ, ◌≤◌};
ghost use Rattle.read_tokens.specs.Token.{Symbol};
ghost use Rattle.grammar_table.specs.Trees.{tree_of};
ghost use Rattle.write_rules.specs.Writing.{level, put, expr_text};
ghost use Rattle.write_leaves.specs.steps.Pen.{after};
ghost use Rattle.write_leaves.specs.steps.Printed.{called, toned};

use grammar_table::records;
use write_leaves::bytes::Pen;

// How tight an expression is: 0 choice, 1 sequence, 2 prefix, 3 suffix, 4 primary. A number, which `level` gives and `wrapped` compares.
pub fn level_of(t: &[u32], x: usize) -> usize
    requires { x ≤ 4294967296 }
    ensures { (f : ℕ → Symbol) → result ≡ level (toned f (tree_of t.now x)) }
{
    if x == 0 {
        return 4;
    }
    match records::op(t, x - 1) {
        grammar_table::TERMINAL | grammar_table::SYMBOL => 4,
        grammar_table::SEQUENCE => 1,
        grammar_table::CHOICE => 0,
        grammar_table::OPTION | grammar_table::STAR | grammar_table::PLUS => 3,
        _ => 2,
    }
}

// Expression x - 1, and `.` for 0.
#[cycle(exp_wrapped)]
pub fn exp(t: &[u32], pen: &mut Pen, plain: bool, x: usize)
    requires { x ≤ 4294967296 }
    ensures { pen.new ≡ after pen.old (expr_text (toned (called plain t.now) (tree_of t.now x))) }
{
    if x == 0 {
        pen.emit(b'.');
        return;
    }
    let e = x - 1;
    let l = records::left(t, e);
    let y = grammar_table::part(l, e);
    match records::op(t, e) {
        grammar_table::TERMINAL => pen.leaf(t, l),
        grammar_table::SYMBOL => pen.symbol(t, plain, l),
        grammar_table::SEQUENCE => {
            wrapped(t, pen, plain, y, 1);
            pen.emit(b' ');
            let z = grammar_table::part(records::right(t, e), e);
            wrapped(t, pen, plain, z, 2);
        }
        grammar_table::CHOICE => {
            wrapped(t, pen, plain, y, 0);
            pen.emit_all(b" / ");
            let z = grammar_table::part(records::right(t, e), e);
            wrapped(t, pen, plain, z, 1);
        }
        grammar_table::OPTION => {
            wrapped(t, pen, plain, y, 4);
            pen.emit(b'?');
        }
        grammar_table::STAR => {
            wrapped(t, pen, plain, y, 4);
            pen.emit(b'*');
        }
        grammar_table::PLUS => {
            wrapped(t, pen, plain, y, 4);
            pen.emit(b'+');
        }
        grammar_table::AHEAD => {
            pen.emit(b'&');
            wrapped(t, pen, plain, y, 3);
        }
        _ => {
            pen.emit(b'!');
            wrapped(t, pen, plain, y, 3);
        }
    }
}

// The same where an expression of level k or tighter may stand bare.
#[cycle(exp_wrapped)]
pub fn wrapped(t: &[u32], pen: &mut Pen, plain: bool, x: usize, k: usize)
    requires { x ≤ 4294967296 }
    ensures { pen.new ≡ after pen.old
        (put k (toned (called plain t.now) (tree_of t.now x)) (expr_text (toned (called plain t.now) (tree_of t.now x)))) }
{
    if level_of(t, x) < k {
        pen.emit(b'(');
        exp(t, pen, plain, x);
        pen.emit(b')');
    } else {
        exp(t, pen, plain, x);
    }
}
