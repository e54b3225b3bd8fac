// A grammar's table of words from its text (01, Notation). The text is one that refusals 1 to 5 let through, so that no function here answers an
// error; on any other text the code does something and ends.
#![tactic(auto)]

ghost use Rattle.std.specs.Prelude.{◌+◌, ◌<◌, ◌≤◌, ◌≡◌, ◌||◌, length, MatchOption};
ghost use Rattle.grammar.specs.Trees.{tree_c, tree_s, tree_p, tree_q};
ghost use Rattle.read_syntax.specs.Reader.{begins, is_arrow, choice_p, seq_p, pref_p, prim_p};
ghost use Rattle.read_tokens.specs.declared.Kind.TheVariants.{Any};
ghost use Rattle.read_tokens.specs.Tokens.{token_at};
ghost use Rattle.read_tokens.specs.steps.Code.{coded};
ghost use Rattle.read_grammar.specs.steps.Promises.{toks_at, begins_part, every_of, Over, Occurs, Matches, Grown, Suffixes};
ghost use Rattle.read_grammar.specs.steps.Promises.{Ruled, Laid, Named, Ended, Marked, Built};

use base_words::put;
use grammar_table::records::{expressions, leaf_kind, symbols, terminals};
use grammar_table::{CHOICE, SEQUENCE, SYMBOL, TERMINAL, Table};
use read_entries::entries::{note_symbol, symbol_number};
use read_entries::leaves::{note_any, note_leaf};
use read_entries::parts::{add_over, add_pair, add_part, prefix_op, set_body, suffix_op};
use read_tokens::kinds::{ByteTable, laid_out};
use read_tokens::{Kind, Mode, Token, token_by};

// How many symbols, terminals and expressions there are; 65, 65 and 1,025 say that there are more than a table has room for, as a table itself says it
// (`Built`).
#[derive(Clone, Copy)]
pub struct Counts {
    pub symbols: usize,
    pub terminals: usize,
    pub expressions: usize,
}

// The count of symbols or of terminals that says so.
const TOO_MANY: usize = 65;

// That of expressions.
const TOO_MANY_EXPRESSIONS: usize = 1025;

// ── symbols ──
// Which symbols are noted: those that an arrow follows, or every one. A closure in its place would have to say in its contract what it reads of the tokens.
#[derive(Clone, Copy)]
enum Asked {
    Lefts,
    Every,
}

// The use of a symbol. Where there are too many expressions already nothing would change, so that it is not looked for.
fn occurrence(text: &[u8], kind: Kind, start: usize, size: usize, t: &mut [u32])
    requires { start + size ≤ 1048576 }
    ensures { Occurs text.now kind start size t.old t.new }
{
    if expressions(t) != TOO_MANY_EXPRESSIONS {
        let n = symbol_number(text, kind, start, size, t);
        add_part(t, SYMBOL, n, 0);
    }
}

// Whether a part of a sequence that is no symbol begins with a token of a kind: a terminal, a prefix or a parenthesis.
fn begins_part(kind: Kind) -> bool
    ensures { result ≡ begins_part kind }
{
    matches!(
        kind,
        Kind::Any | Kind::Literal | Kind::Class | Kind::Amp | Kind::Bang | Kind::Opens
    )
}

// What reads a text: its mode and the kinds of bytes go with it everywhere.
#[derive(Clone, Copy)]
struct Reader<'a> {
    mode: Mode,
    text: &'a [u8],
    table: &'a ByteTable,
    ghost short: { length text.now ≤ 1048576 },
}

impl Reader<'_> {
    // ── tokens ──
    // The token at a place.
    fn token(&self, at: usize) -> Token
        ensures { let r = self.now in result ≡ coded (token_at r.mode r.text.now at) }
    {
        token_by(self.mode, self.text, at, self.table)
    }

    // The place behind the token at a place; at the text's end the place itself.
    fn over(&self, at: usize) -> usize
        requires { at ≤ length self.now.text.now }
        ensures { let r = self.now in Over r.mode r.text.now at result }
    {
        let Token { kind, next, .. } = self.token(at);
        if kind == Kind::End { at } else { next }
    }

    // What the reader asks of a name, in its own words: they are proved once for the two places that ask.
    fn arrow_at(&self, at: usize) -> bool
        ensures { let r = self.now in result ≡ is_arrow (toks_at r.mode r.text.now at) }
    {
        read_tokens::arrow_at(self.mode, self.text, at)
    }

    // Whether a part of a sequence begins: it may also be "a name or lake not followed by `<-`".
    fn begins_at(&self, at: usize) -> bool
        ensures { let r = self.now in result ≡ begins (toks_at r.mode r.text.now at) }
    {
        let Token { kind, next, .. } = self.token(at);
        if kind.is_symbol() {
            !self.arrow_at(next)
        } else {
            begins_part(kind)
        }
    }

    // ── symbols ──
    // Whether a symbol is noted behind which `next` stands.
    fn is_asked(&self, asked: Asked, next: usize) -> bool
        ensures { let r = self.now in result ≡ (every_of asked || is_arrow (toks_at r.mode r.text.now next)) }
    {
        match asked {
            Asked::Lefts => self.arrow_at(next),
            Asked::Every => true,
        }
    }

    // Passes a token, if there is one, and notes its symbol where it is asked for. Where there are too many already nothing would change, so that it is not
    // looked for: a text of 1 MiB can have 175,000 of them.
    fn mark(&self, asked: Asked, at: usize, t: &mut [u32]) -> Option<usize>
        requires { at ≤ length self.now.text.now }
        ensures { let r = self.now in MatchOption result (Ended r.mode r.text.now at t.old t.new)
            (λ to. Marked (every_of asked) r.mode r.text.now at to t.old t.new) }
    {
        let Token {
            kind,
            start,
            next,
            size,
        } = self.token(at);
        if kind == Kind::End {
            return None;
        }
        if kind.is_symbol() && symbols(t) != TOO_MANY && self.is_asked(asked, next) {
            note_symbol(self.text, kind, start, size, t);
        }
        Some(next)
    }

    fn mark_all(&self, asked: Asked, t: &mut [u32])
        ensures { let r = self.now in Named (every_of asked) r.mode r.text.now t.old t.new }
    {
        let mut i = 0;
        while let Some(next) = self.mark(asked, i, t) {
            i = next;
        }
    }

    // ── expressions ──
    // The use of a terminal. Where there are too many already no number counts, and it is not looked for: a text of 1 MiB can have a million of them. It is
    // called at two places, so that the compiler gives it a frame of its own, which is gone when parentheses nest: the marks of a class are in it.
    fn terminal(&self, kind: Kind, start: usize, size: usize, t: &mut [u32])
        requires { start < length self.now.text.now }
        ensures { let r = self.now in Matches r.mode r.text.now kind start size t.old t.new }
    {
        if terminals(t) == TOO_MANY {
            add_part(t, TERMINAL, 0, 0);
        } else {
            let n = note_leaf(self.mode, self.text, kind, start, size, t);
            add_part(t, TERMINAL, n, 0);
        }
    }

    // The use of `.`, which is the first terminal as soon as it is noted, and is then not looked for either.
    fn any_byte(&self, start: usize, size: usize, t: &mut [u32])
        requires { start < length self.now.text.now }
        ensures { let r = self.now in Matches r.mode r.text.now Any start size t.old t.new }
    {
        if 0 < terminals(t) && leaf_kind(t, 0) == grammar_table::ANY {
            add_part(t, TERMINAL, 0, 0);
        } else {
            self.terminal(Kind::Any, start, size, t);
        }
    }

    fn suffix(&self, at: usize, t: &mut [u32]) -> usize
        requires { at ≤ length self.now.text.now }
        ensures { let r = self.now in Suffixes r.mode r.text.now at result t.old t.new }
    {
        let Token { kind, next, .. } = self.token(at);
        match suffix_op(kind) {
            Some(op) => {
                add_over(t, op);
                next
            }
            None => at,
        }
    }

    // "A primary is a name or lake .., a literal .., a class .., `.`, or a parenthesis."
    #[cycle(choice_prefix_primary_sequence)]
    fn primary(&self, at: usize, t: &mut [u32]) -> usize
        requires { at ≤ length self.now.text.now }
        ensures { let r = self.now in Grown prim_p tree_q r.mode r.text.now at result t.old t.new }
    {
        let Token {
            kind,
            start,
            next,
            size,
        } = self.token(at);
        match kind {
            Kind::End => at,
            Kind::Name | Kind::Lake => {
                occurrence(self.text, kind, start, size, t);
                next
            }
            Kind::Any => {
                self.any_byte(start, size, t);
                next
            }
            Kind::Literal | Kind::Class => {
                self.terminal(kind, start, size, t);
                next
            }
            Kind::Opens => {
                let i = self.choice(next, t);
                self.over(i)
            }
            _ => next,
        }
    }

    // "One prefix (`&` or `!`), one suffix (`?`, `*` or `+`), primary."
    #[cycle(choice_prefix_primary_sequence)]
    fn prefix(&self, at: usize, t: &mut [u32]) -> usize
        requires { at ≤ length self.now.text.now }
        ensures { let r = self.now in Grown pref_p tree_p r.mode r.text.now at result t.old t.new }
    {
        let Token { kind, next, .. } = self.token(at);
        match prefix_op(kind) {
            Some(op) => {
                let i = self.primary(next, t);
                let j = self.suffix(i, t);
                add_over(t, op);
                j
            }
            None => {
                let i = self.primary(at, t);
                self.suffix(i, t)
            }
        }
    }

    // "k parts [have] k-1 sequences", which "associate to the left".
    #[cycle(choice_prefix_primary_sequence)]
    fn sequence(&self, at: usize, t: &mut [u32]) -> usize
        requires { at ≤ length self.now.text.now }
        ensures { let r = self.now in Grown seq_p tree_s r.mode r.text.now at result t.old t.new }
    {
        let mut i = self.prefix(at, t);
        while self.begins_at(i) {
            let a = expressions(t);
            i = self.prefix(i, t);
            add_pair(t, SEQUENCE, a);
        }
        i
    }

    // "k alternatives have k-1 choices".
    #[cycle(choice_prefix_primary_sequence)]
    fn choice(&self, at: usize, t: &mut [u32]) -> usize
        requires { at ≤ length self.now.text.now }
        ensures { let r = self.now in Grown choice_p tree_c r.mode r.text.now at result t.old t.new }
    {
        let mut i = self.sequence(at, t);
        loop {
            let Token { kind, next, .. } = self.token(i);
            if kind != Kind::Slash {
                return i;
            }
            let a = expressions(t);
            i = self.sequence(next, t);
            add_pair(t, CHOICE, a);
        }
    }

    // ── rules ──
    // One rule: behind its name and the arrow stands the body of symbol k.
    fn rule(&self, at: usize, k: usize, t: &mut [u32]) -> usize
        requires { at ≤ length self.now.text.now }
        ensures { let r = self.now in Ruled r.mode r.text.now at k result t.old t.new }
    {
        let a = self.over(at);
        let b = self.over(a);
        let j = self.choice(b, t);
        set_body(t, k);
        j
    }

    // "Left sides in order": rule after rule gives the bodies of symbols 0, 1, ..
    fn rules(&self, t: &mut [u32])
        ensures { let r = self.now in Laid r.mode r.text.now t.old t.new }
    {
        let mut i = 0;
        let mut k = 0;
        loop {
            let h = self.token(i);
            if h.kind == Kind::End {
                return;
            }
            i = self.rule(i, k, t);
            k += 1;
        }
    }

    // ── the whole ──
    // Symbols: the left sides, then every one that is new, which only a lake without a rule can be. `.` is the first terminal.
    fn fill(&self, t: &mut [u32]) -> Counts
        ensures { let r = self.now in Built r.mode r.text.now t.old t.new result }
    {
        put(t, 0, 0);
        put(t, 1, 0);
        put(t, 2, 0);
        self.mark_all(Asked::Lefts, t);
        self.mark_all(Asked::Every, t);
        let n = symbols(t);
        if 64 < n {
            return Counts {
                symbols: n,
                terminals: 0,
                expressions: 0,
            };
        }
        note_any(self.text, t);
        self.rules(t);
        Counts {
            symbols: n,
            terminals: terminals(t),
            expressions: expressions(t),
        }
    }
}

// The table of the grammar that the text is, and how many symbols, terminals and expressions it has.
pub fn build(mode: Mode, text: &[u8], t: &mut Table) -> Counts
    requires { length text.now ≤ 1048576 }
    ensures { Built mode text.now t.old t.new result }
{
    let reader = Reader {
        mode,
        text,
        table: &laid_out(),
    };
    reader.fill(t)
}
