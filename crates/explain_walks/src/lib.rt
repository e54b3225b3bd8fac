// Walks over the tokens of a lake grammar. Each goes on only where a token ends behind its begin, which is all that is needed for it to end.
// Their `while` counts nothing: the step is the token's, and a `for` has one of its own.
#![tactic(auto)]

ghost use Rattle.std.specs.Prelude.{◌+◌, ◌≤◌, ◌<◌};

use read_tokens::{Kind, Mode, Token};

pub fn token_at(text: &[u8], at: usize) -> Token {
    read_tokens::token_at(Mode::Lake, text, at)
}

// ── what could stand at a place ──
// By the tokens before it: there are none; only a left side; the last is `<-`, `/` or `(`; it is `&` or `!`; it ends a part.
#[derive(Clone, Copy, PartialEq, Eq)]
pub enum Wanted {
    Rule,
    Arrow,
    Part,
    Primary,
    More,
}

impl Wanted {
    fn behind(self, kind: Kind) -> Wanted {
        if self == Wanted::Rule {
            return Wanted::Arrow;
        }
        match kind {
            Kind::Arrow | Kind::Slash | Kind::Opens => Wanted::Part,
            Kind::Amp | Kind::Bang => Wanted::Primary,
            _ => Wanted::More,
        }
    }
}

// What could stand behind some tokens, how many parentheses are open there, and the last of them: its kind and where it begins.
#[derive(Clone, Copy)]
pub struct Before {
    pub wanted: Wanted,
    pub depth: usize,
    pub kind: Kind,
    pub start: usize,
}

fn depth_behind(depth: usize, kind: Kind) -> usize
    requires { depth < 18446744073709551615 }
    ensures { result ≤ depth + 1 }
{
    match kind {
        Kind::Opens => depth + 1,
        Kind::Closes => depth.saturating_sub(1),
        _ => depth,
    }
}

impl Before {
    // The same behind one token more.
    fn behind(self, t: Token) -> Before
        requires { self.depth < 18446744073709551615 }
        ensures { result.depth ≤ self.depth + 1 }
    {
        Before {
            wanted: self.wanted.behind(t.kind),
            depth: depth_behind(self.depth, t.kind),
            kind: t.kind,
            start: t.start,
        }
    }
}

// Behind all tokens that begin before a place.
pub fn stands_before(text: &[u8], place: usize) -> Before {
    let mut b = Before {
        wanted: Wanted::Rule,
        depth: 0,
        kind: Kind::End,
        start: 0,
    };
    let mut at = 0;
    while at < place {
        let t = token_at(text, at);
        if place <= t.start || t.next <= at {
            return b;
        }
        b = b.behind(t);
        at = t.next;
    }
    b
}

// ── where a symbol stands ──
fn is_left(text: &[u8], t: Token) -> bool {
    t.kind.is_symbol() && read_walks::is_left(Mode::Lake, text, t.next)
}

fn same(text: &[u8], a: usize, b: usize, n: usize) -> bool {
    let len = text.len();
    n <= len && a <= len - n && b <= len - n && read_walks::same_bytes(text, a, b, n)
}

// Whether a token is the lake of n bytes at `start`, as a left side or at an earlier place.
fn is_older(text: &[u8], t: Token, start: usize, n: usize) -> bool {
    same(text, t.start, start, n) && (t.start < start || is_left(text, t))
}

// Where the token begins that is sought and has so many of them before it; or how many more would have been needed.
fn seek<F: Fn(Token) -> bool>(text: &[u8], number: usize, is_sought: F) -> Result<usize, usize>
    requires { F.IsAlwaysCallable is_sought }
{
    let mut left = number;
    let mut at = 0;
    while at < text.len() {
        let t = token_at(text, at);
        if t.next <= at {
            return Err(left);
        }
        if is_sought(t) {
            if left == 0 {
                return Ok(t.start);
            }
            left -= 1;
        }
        at = t.next;
    }
    Err(left)
}

// Whether a token is the first use of a lake without a rule.
fn is_new_lake(text: &[u8], t: Token) -> bool {
    if t.kind != Kind::Lake || t.next < t.start {
        return false;
    }
    let n = t.next - t.start;
    seek(text, 0, |u: Token| is_older(text, u, t.start, n)).is_err()
}

// Where the symbol of a number first stands (01, Notation): "left sides in order, then lakes without a rule by first use".
pub fn symbol_at(text: &[u8], number: usize) -> usize {
    match seek(text, number, |t: Token| is_left(text, t)) {
        Ok(start) => start,
        Err(left) => seek(text, left, |t: Token| is_new_lake(text, t)).unwrap_or(0),
    }
}

// ── reserved names ──
// Whether the name of a token is one that a lake grammar may not have.
pub fn is_reserved(text: &[u8], t: Token) -> bool {
    let n = t.size;
    if text.len() <= t.start || text.len() < n {
        return false;
    }
    let from = if t.kind == Kind::Lake {
        t.start + 1
    } else {
        t.start
    };
    from <= text.len() - n && read_walks::reserved_name(Mode::Lake, text, from, n)
}
