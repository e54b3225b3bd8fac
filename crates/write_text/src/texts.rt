// The rules of a table as text, counted before a byte is written (01, Writing; refusal 13: "bytes needed").
ghost use Rattle.std.specs.Prelude.{◌≡◌, true, false, ℕ, List, [], ◌∷◌, ◌≤◌, ◌<◌, MatchResult};
ghost use Rattle.std.specs.Borrow.{MutBor};
ghost use Rattle.grammar_table.specs.Table.{body_in};
ghost use Rattle.grammar_table.specs.Trees.{tree_of};
ghost use Rattle.write_rules.specs.Writing.{rule_text, text};
ghost use Rattle.write_leaves.specs.declared.bytes.Pen.{Pen};
ghost use Rattle.write_leaves.specs.steps.Pen.{after};
ghost use Rattle.write_leaves.specs.steps.Printed.{called, toned};
ghost use Rattle.write_text.specs.steps.Texts.{rules_in, text_of, Paged};

use grammar_table::records;
use write_leaves::bytes::Pen;

// Symbol r's rule with expression x - 1 as its right side: "name, ` <- `, expression, LF".
fn rule(t: &[u32], pen: &mut Pen, plain: bool, r: usize, x: usize)
    requires { (r < 4294967296) × (x ≤ 4294967296) }
    ensures { pen.new ≡ after pen.old
        (rule_text (record { left = called plain t.now r; right = toned (called plain t.now) (tree_of t.now x) })) }
{
    pen.symbol(t, plain, r);
    pen.emit_all(b" <- ");
    write_exp::exp(t, pen, plain, x);
    pen.emit(b'\n');
}

// Symbol r's rule, if it has one.
fn rule_of(t: &[u32], pen: &mut Pen, plain: bool, r: usize)
    requires { r < 4294967296 }
    ensures { pen.new ≡ after pen.old (text (rules_in (called plain t.now) r (body_in t.now r ∷ []))) }
{
    let x = records::body(t, r);
    if x != 0 {
        rule(t, pen, plain, r, x);
    }
}

// All rules, by symbol number.
pub fn rules(t: &[u32], pen: &mut Pen, plain: bool)
    ensures { pen.new ≡ after pen.old (text_of plain t.now) }
{
    for r in 0..records::symbols(t) {
        rule_of(t, pen, plain, r);
    }
}

// A text put at the front of the room: how many bytes it has; or nothing where it does not fit: how many it needs. Counted before a byte is written.
pub fn put<F: Fn(&mut Pen)>(out: &mut [u8], text: F) -> Result<usize, usize>
    requires { F.IsAlwaysCallable text }
    ensures { (w : List ℕ) → ((p q : MutBor Pen) → F.post text p tt q → q.now ≡ after p.now w)
        → MatchResult result (λ n. Paged w out.old out.new n true) (λ n. Paged w out.old out.new n false) }
{
    let mut count = Pen::new(&mut []);
    text(&mut count);
    if out.len() < count.at {
        return Err(count.at);
    }
    let mut pen = Pen::new(out);
    text(&mut pen);
    Ok(pen.at)
}

// The whole text at the front of the room: how many bytes it has; or nothing where it does not fit: how many it needs.
pub fn write(t: &[u32], out: &mut [u8], plain: bool) -> Result<usize, usize>
    ensures { MatchResult result (λ n. Paged (text_of plain t.now) out.old out.new n true)
        (λ n. Paged (text_of plain t.now) out.old out.new n false) }
{
    put(out, |pen| rules(t, pen, plain))
}
