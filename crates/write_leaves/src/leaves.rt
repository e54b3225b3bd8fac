// Names and terminals.
ghost use Rattle.std.specs.Prelude.{◌≡◌, List, map, ℕ, ◌+◌, ◌≤◌, ◌<◌, IfSome, IsTrue};
ghost use Rattle.std.proofs.Math.Option.{none};
ghost use Rattle.read_tokens.specs.Chars.{range};
ghost use Rattle.grammar_table.specs.Table.{words_from, marks_from, leaf_in};
ghost use Rattle.write_rules.specs.Writing.{lit_chars, run_text, runs_text, runs, leaf_text, symbol_text};
ghost use Rattle.write_leaves.specs.steps.Pen.{after};
ghost use Rattle.write_leaves.specs.steps.Printed.{low, low_leaf, called, rest_of};

use crate::bytes::Pen;
use grammar_table::records;

impl Pen<'_> {
    // A name's bytes. As `lit_chars` but for one call, and no closure for it would be shorter.
    pub fn name_bytes(&mut self, t: &[u32], i: usize, n: usize)
        requires { (i < 4398046511104) × (n < 4294967296) }
        ensures { self.new ≡ after self.old (map low (words_from t.now i n)) }
    {
        for j in 0..n {
            self.emit((base_words::word(t, i + j) % 256) as u8);
        }
    }

    // A literal's characters.
    pub fn lit_chars(&mut self, t: &[u32], i: usize, n: usize)
        requires { (i < 4398046511104) × (n < 4294967296) }
        ensures { self.new ≡ after self.old (lit_chars (map low (words_from t.now i n))) }
    {
        for j in 0..n {
            self.lit_char((base_words::word(t, i + j) % 256) as u8);
        }
    }

    // A run of class bytes: "runs of two or more class bytes as lo-hi".
    fn run_text(&mut self, lo: u8, hi: u8)
        ensures { self.new ≡ after self.old (run_text (range lo hi)) }
    {
        self.class_char(lo);
        if lo != hi {
            self.emit(b'-');
            self.class_char(hi);
        }
    }

    // One mark of a class: from the byte at which the open run began, if one is open, to the same behind the mark.
    fn mark(&mut self, t: &[u32], i: usize, run: Option<u8>, b: usize) -> Option<u8>
        requires { (i < 4398046511104) × (b < 256) × IfSome run (λ lo. lo < b) }
        ensures text { after self.new (rest_of t.now i result (b + 1)) ≡ after self.old (rest_of t.now i run b) }
        ensures begun { IfSome result (λ lo. lo ≤ b) }
    {
        let marked = base_words::word(t, i + b) != 0;
        match run {
            Some(lo) if !marked => {
                self.run_text(lo, (b - 1) as u8);
                None
            }
            None if marked => Some(b as u8),
            _ => run,
        }
    }

    // The runs of a class, ascending.
    pub fn class_runs(&mut self, t: &[u32], i: usize)
        requires { i < 4398046511104 }
        ensures { self.new ≡ after self.old (runs_text (runs none 0 (marks_from t.now i 256))) }
    {
        let mut run = None;
        for b in 0..256 {
            run = self.mark(t, i, run, b);
        }
        if let Some(lo) = run {
            self.run_text(lo, 255);
        }
    }

    // Terminal x.
    pub fn leaf(&mut self, t: &[u32], x: usize)
        requires { x < 4294967296 }
        ensures { self.new ≡ after self.old (leaf_text (low_leaf (leaf_in t.now x))) }
    {
        let i = records::content_at(x);
        match records::leaf_kind(t, x) {
            grammar_table::ANY => self.emit(b'.'),
            grammar_table::LITERAL => {
                self.emit(b'\'');
                self.lit_chars(t, i, records::leaf_length(t, x));
                self.emit(b'\'');
            }
            _ => {
                self.emit(b'[');
                self.class_runs(t, i);
                self.emit(b']');
            }
        }
    }

    // Symbol r by its name; in plain a lake `<x>` is `lake__x`. Wherever `plain` is handed on it says which names, as `called plain t` does, and no step.
    pub fn symbol(&mut self, t: &[u32], plain: bool, r: usize)
        requires { r < 4294967296 }
        ensures { self.new ≡ after self.old (symbol_text (called plain t.now r)) }
    {
        let i = records::name_at(r);
        let n = records::name_length(t, r);
        if records::kind(t, r) == 0 {
            self.name_bytes(t, i, n);
        } else if plain {
            self.emit_all(b"lake__");
            self.name_bytes(t, i, n);
        } else {
            self.emit(b'<');
            self.name_bytes(t, i, n);
            self.emit(b'>');
        }
    }
}
