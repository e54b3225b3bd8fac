// Expressions, one after the other: parts before wholes, so that the last one stands for what was read last.
ghost use Rattle.std.specs.Prelude.{◌+◌, ◌-◌, ◌*◌, ◌<◌, ◌≤◌, ◌≡◌, get_or, MatchOption};
ghost use Rattle.read_entries.specs.steps.Entries.{pushed, bodied, prefix_op, suffix_op};

use base_words::put;
use grammar_table::records::{expressions, store_body, store_expression};
use grammar_table::{AHEAD, NEVER, OPTION, PLUS, STAR};
use read_tokens::Kind;

// The word of a table that counts its expressions, how many it has room for, and the count that says that there are more.
const COUNT: usize = 2;

const MOST: usize = 1024;

const MORE: usize = 1025;

// The place before; 0 at the first. It is named for its promise, which calls of other crates may rest on.
pub fn before(x: usize) -> usize
    ensures { result ≡ x - 1 }
{
    x.saturating_sub(1)
}

// Adds an expression; 1,024 are kept, and 1,025 says that there are more.
pub fn add_part(t: &mut [u32], kind: usize, left: usize, right: usize)
    requires { (kind < 4294967296) × (left < 4294967296) × (right < 4294967296) }
    ensures { t.new ≡ pushed kind left right t.old }
{
    let c = expressions(t);
    if c < MOST {
        store_expression(t, c, kind, left, right);
        put(t, COUNT, c + 1);
    } else {
        put(t, COUNT, MORE);
    }
}

// An operator over the last expression.
pub fn add_over(t: &mut [u32], kind: usize)
    requires { kind < 4294967296 }
    ensures { t.new ≡ pushed kind (get_or t.old 2 0 - 1) 0 t.old }
{
    add_part(t, kind, before(expressions(t)), 0);
}

// A sequence or a choice of the expression that was the last when there were `a`, and the last one.
pub fn add_pair(t: &mut [u32], kind: usize, a: usize)
    requires { (kind < 4294967296) × (a < 4294967296) }
    ensures { t.new ≡ pushed kind (a - 1) (get_or t.old 2 0 - 1) t.old }
{
    let l = before(a);
    let r = before(expressions(t));
    add_part(t, kind, l, r);
}

// The last expression is the body of symbol k: 1 + its number is the count.
pub fn set_body(t: &mut [u32], k: usize)
    ensures { t.new ≡ bodied k t.old }
{
    if k < 64 {
        store_body(t, k, expressions(t));
    }
}

// The kind of an expression under a prefix, and under a suffix, by the token's kind.
pub fn prefix_op(kind: Kind) -> Option<usize>
    ensures { (result ≡ prefix_op kind) × MatchOption result (Unit {0}) (λ p. p < 9) }
{
    match kind {
        Kind::Amp => Some(AHEAD),
        Kind::Bang => Some(NEVER),
        _ => None,
    }
}

pub fn suffix_op(kind: Kind) -> Option<usize>
    ensures { (result ≡ suffix_op kind) × MatchOption result (Unit {0}) (λ p. p < 9) }
{
    match kind {
        Kind::Query => Some(OPTION),
        Kind::Asterisk => Some(STAR),
        Kind::Cross => Some(PLUS),
        _ => None,
    }
}
