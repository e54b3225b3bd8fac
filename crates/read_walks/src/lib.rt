// Refusals 4 and 5 (01, Refusal numbers): left sides and names are compared by their places in the text, so that nothing is stored however many rules a text
// has.
#![tactic(auto)]

ghost use Rattle.std.specs.Prelude.{◌≡◌, Bool, true, false, List, [], ℕ, ◌+◌, ◌≤◌, ◌<◌, length, drop, take};
ghost use Rattle.std.proofs.Math.Option.{some, none};
ghost use Rattle.read_tokens.specs.Token.{Tok};
ghost use Rattle.read_tokens.specs.Tokens.{token_at, lexemes};
ghost use Rattle.read_tokens.specs.steps.Code.{coded};
ghost use Rattle.read_tokens.specs.declared.Kind.TheVariants.{End};
ghost use Rattle.read_tokens.specs.laws.Forward.{lexemes_at};
ghost use Rattle.grammar.specs.Same.{same_bytes, same_symbol, is_in};
ghost use Rattle.read_syntax.specs.Reading.{before, starts_with, lefts_in, second, unruled, lacks};
ghost use Rattle.read_walks.specs.steps.Names.{bytes_at, symbol_by, hit_by, walk_to, begun, placed, bad4, lake_prefix, reserved_by};

mod named;

pub use named::Named;
use read_tokens::{Kind, Mode, Token, token_at};

// Whether n bytes at a are those at b.
pub fn same_bytes(text: &[u8], a: usize, b: usize, n: usize) -> bool
    requires { (a + n ≤ length text.now) × (b + n ≤ length text.now) }
    ensures { result ≡ same_bytes (bytes_at text.now a n) (bytes_at text.now b n) }
{
    text[a..a + n] == text[b..b + n]
}

// Whether an arrow comes next: `read_tokens::arrow_at` promises it of one token, and this of the tokens that follow, as the walks ask for it.
pub fn is_left(mode: Mode, text: &[u8], at: usize) -> bool
    ensures { result ≡ before (lexemes_at mode text.now at) }
{
    read_tokens::arrow_at(mode, text, at)
}

// Where the name of a symbol token begins: behind a lake's bracket.
pub fn name_start(kind: Kind, start: usize) -> usize
    requires { start < 4294967296 }
    ensures { result ≡ begun kind start }
{
    match kind {
        Kind::Lake => start + 1,
        _ => start,
    }
}

// Whether the token t at `at` is the left side of a symbol.
pub fn hit(mode: Mode, text: &[u8], at: usize, t: Token, symbol: Named) -> bool
    requires { (t ≡ coded (token_at mode text.now at)) × (symbol.from + symbol.size ≤ length text.now) × (length text.now < 4294967296) }
    ensures { (u : Tok) → (token_at mode text.now at).is ≡ some u
        → result ≡ hit_by (symbol_by symbol.kind (bytes_at text.now symbol.from symbol.size)) u
        (before (lexemes_at mode text.now (token_at mode text.now at).next)) }
{
    let Named { kind, from, size } = symbol;
    if t.kind != kind || t.size != size {
        return false;
    }
    is_left(mode, text, t.next) && same_bytes(text, from, name_start(kind, t.start), size)
}

// Whether a symbol is a left side among the tokens before `limit`, a place that the walk over the tokens comes to, or the text's end.
pub fn left_before(mode: Mode, text: &[u8], limit: usize, symbol: Named) -> bool
    requires { (symbol.from + symbol.size ≤ length text.now) × (length text.now < 4294967296) }
    ensures passed { (k : ℕ) → (walk_to mode text.now k).at ≡ limit
        → result ≡ is_in same_symbol (symbol_by symbol.kind (bytes_at text.now symbol.from symbol.size)) (walk_to mode text.now k).seen }
    ensures whole { length text.now ≤ limit
        → result ≡ is_in same_symbol (symbol_by symbol.kind (bytes_at text.now symbol.from symbol.size)) (lefts_in (lexemes mode text.now)) }
{
    let mut i = 0;
    // A cursor, and no counted loop: here and below its step is the token's.
    while i < limit {
        let t = token_at(mode, text, i);
        if t.kind == Kind::End {
            return false;
        }
        if hit(mode, text, i, t, symbol) {
            return true;
        }
        i = t.next;
    }
    false
}

// Whether a symbol is a left side of the text.
pub fn has_rule(mode: Mode, text: &[u8], symbol: Named) -> bool
    requires { (symbol.from + symbol.size ≤ length text.now) × (length text.now < 4294967296) }
    ensures { result ≡ is_in same_symbol (symbol_by symbol.kind (bytes_at text.now symbol.from symbol.size)) (lefts_in (lexemes mode text.now)) }
{
    left_before(mode, text, text.len(), symbol)
}

// Whether the name of n bytes from `from` on begins with `lake__`.
fn lakelike(text: &[u8], from: usize, n: usize) -> bool
    requires { from + n ≤ length text.now }
    ensures { result ≡ starts_with lake_prefix (bytes_at text.now from n) }
{
    text[from..from + n].starts_with(b"lake__")
}

// "names, a lake's too, may not begin with `lake__`" in lake mode.
pub fn reserved_name(mode: Mode, text: &[u8], from: usize, n: usize) -> bool
    requires { from + n ≤ length text.now }
    ensures { result ≡ reserved_by mode (bytes_at text.now from n) }
{
    match mode {
        Mode::Lake => lakelike(text, from, n),
        Mode::Plain => false,
    }
}

// Whether the token t at `at` is a second left side or has a reserved name.
fn bad_name(mode: Mode, text: &[u8], at: usize, t: Token) -> bool
    requires { (t ≡ coded (token_at mode text.now at)) × (t.kind ≡ End → ⊥) × (length text.now < 4294967296) }
    ensures { (k : ℕ) → (walk_to mode text.now k).at ≡ at → (u : Tok) → (token_at mode text.now at).is ≡ some u
        → result ≡ bad4 mode (walk_to mode text.now k).seen u
        (before (lexemes_at mode text.now (token_at mode text.now at).next)) }
{
    let Token { kind, size, .. } = t;
    if !kind.is_symbol() {
        return false;
    }
    let from = name_start(kind, t.start);
    if reserved_name(mode, text, from, size) {
        return true;
    }
    let symbol = Named { kind, from, size };
    is_left(mode, text, t.next) && left_before(mode, text, at, symbol)
}

// Refusal 4: the place of the leftmost second left side or reserved name.
pub fn second_walked(mode: Mode, text: &[u8]) -> Option<usize>
    requires { length text.now < 4294967296 }
    ensures { result ≡ placed (second mode [] (lexemes mode text.now)) }
{
    let mut at = 0;
    loop {
        let t = token_at(mode, text, at);
        if t.kind == Kind::End {
            return None;
        }
        if bad_name(mode, text, at, t) {
            return Some(t.start);
        }
        at = t.next;
    }
}

// Whether the token t at `at` is the use of a nonterminal without a rule.
fn lacking(mode: Mode, text: &[u8], at: usize, t: Token) -> bool
    requires { (t ≡ coded (token_at mode text.now at)) × (t.kind ≡ End → ⊥) × (length text.now < 4294967296) }
    ensures { (u : Tok) → (token_at mode text.now at).is ≡ some u
        → result ≡ lacks (lefts_in (lexemes mode text.now)) u
        (before (lexemes_at mode text.now (token_at mode text.now at).next)) }
{
    if t.kind != Kind::Name || is_left(mode, text, t.next) {
        return false;
    }
    let symbol = Named {
        kind: Kind::Name,
        from: t.start,
        size: t.size,
    };
    !has_rule(mode, text, symbol)
}

// Refusal 5: the place of the first use of a nonterminal without a rule. One walk for both refusals would take the question as a closure, and a law over it.
pub fn unruled_walked(mode: Mode, text: &[u8]) -> Option<usize>
    requires { length text.now < 4294967296 }
    ensures { result ≡ placed (unruled (lefts_in (lexemes mode text.now)) (lexemes mode text.now)) }
{
    let mut at = 0;
    loop {
        let t = token_at(mode, text, at);
        if t.kind == Kind::End {
            return None;
        }
        if lacking(mode, text, at, t) {
            return Some(t.start);
        }
        at = t.next;
    }
}
