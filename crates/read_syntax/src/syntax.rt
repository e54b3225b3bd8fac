// Refusals 2 and 3 in one walk from the left: the token language is that of an automaton with one counter.
ghost use Rattle.std.specs.Prelude.{◌≡◌, ◌<◌, length, MatchOption, Some};
ghost use Rattle.std.proofs.Math.Option.{some};
ghost use Rattle.read_tokens.specs.Bounds.{name_bound, open_bound};
ghost use Rattle.read_tokens.specs.Tokens.{lexemes};
ghost use Rattle.grammar.specs.Refusal.{refusal};
ghost use Rattle.read_syntax.specs.Machine.{accepting, judge, start};
ghost use Rattle.read_syntax.specs.Reading.{offence};
ghost use Rattle.read_syntax.specs.steps.Numbers.{kind_class, next_of, Moves, moved, deep, state_of, over_by};
ghost use Rattle.read_syntax.specs.steps.Found.{found};

use read_tokens::kinds::laid_out;
use read_tokens::{Kind, Mode, token_by};

// A refusal: the number and the place that 01 says it by, and `found` promises both.
#[derive(Clone, Copy)]
pub struct Found {
    pub number: usize,
    pub place: usize,
}

// By whether a parenthesis is open, control and class of the token. Controls and classes are places in this table, and numbers therefore.
const NEXT: [u8; 126] = [
    1, 7, 7, 7, 7, 7, 7, 7, 7, 7, 7, 7, 7, 2, 7, 7, 7, 7, 4, 4, 3, 7, 7, 7, 2, 7, 7, 4, 4, 7, 7, 7,
    7, 2, 7, 7, 6, 4, 3, 5, 7, 2, 2, 7, 7, 6, 4, 3, 7, 7, 2, 2, 7, 7, 6, 4, 3, 5, 2, 2, 2, 7, 7, 1,
    7, 7, 7, 7, 7, 7, 7, 7, 7, 7, 7, 7, 2, 7, 7, 7, 7, 4, 4, 3, 7, 7, 7, 2, 7, 7, 4, 4, 7, 7, 7, 7,
    2, 7, 7, 6, 4, 3, 5, 7, 2, 2, 4, 7, 6, 4, 3, 7, 7, 2, 2, 4, 7, 6, 4, 3, 5, 7, 2, 2, 4, 7,
];

// What stands in the table where no token of that class may follow.
const DEAD: u8 = 7;

// The column of the table.
fn class(kind: Kind) -> u8
    ensures { result ≡ kind_class kind }
{
    match kind {
        Kind::End | Kind::Name | Kind::Lake => 0,
        Kind::Any | Kind::Literal | Kind::Class => 1,
        Kind::Amp | Kind::Bang => 2,
        Kind::Query | Kind::Asterisk | Kind::Cross => 3,
        Kind::Arrow => 4,
        Kind::Slash => 5,
        Kind::Opens => 6,
        Kind::Closes => 7,
        Kind::Bad => 8,
    }
}

// The table as an array to lend: a walk lays it out once.
fn laid_moves() -> [u8; 126]
    ensures { Moves result }
{
    NEXT
}

// The control after a token of the class k where d parentheses are open.
fn next(c: u8, d: usize, k: u8, moves: &[u8; 126]) -> Option<u8>
    requires { (c < 7) × (k < 9) × Moves moves.now }
    ensures { MatchOption result (next_of c (deep d) k ≡ 7) (λ n. (n ≡ next_of c (deep d) k) × (n < 7)) }
{
    let open = usize::from(d != 0);
    let n = moves[(open * 7 + usize::from(c)) * 9 + usize::from(k)];
    if n == DEAD { None } else { Some(n) }
}

fn open_after(d: usize, kind: Kind) -> usize
    requires { d < 4294967296 }
    ensures { result ≡ moved d (kind_class kind) }
{
    match kind {
        Kind::Arrow => 0,
        Kind::Opens => d + 1,
        Kind::Closes => d.saturating_sub(1),
        _ => d,
    }
}

fn finished(c: u8, d: usize) -> bool
    ensures { result ≡ accepting (state_of c d) }
{
    d == 0 && 4 <= c
}

// One function for each bound, as there is one definition for each: one for both would be no plainer.
fn name_bound(mode: Mode) -> usize
    ensures { result ≡ name_bound mode }
{
    match mode {
        Mode::Lake => 32,
        Mode::Plain => 38,
    }
}

fn open_bound(mode: Mode) -> usize
    ensures { result ≡ open_bound mode }
{
    match mode {
        Mode::Lake => 32,
        Mode::Plain => 33,
    }
}

// Whether a token is over its bound, where d parentheses are open before it.
fn over(mode: Mode, d: usize, kind: Kind, size: usize) -> bool
    ensures { result ≡ over_by mode d kind size }
{
    match kind {
        Kind::Name | Kind::Lake => name_bound(mode) < size,
        Kind::Literal => 64 < size,
        Kind::Opens => open_bound(mode) <= d,
        _ => false,
    }
}

pub fn refuse(number: usize, place: usize) -> Found
    ensures { Some result ≡ found (some (refusal number place)) }
{
    Found { number, place }
}

// Refusals 2 and 3.
pub fn offending(mode: Mode, text: &[u8]) -> Option<Found>
    requires { length text.now < 4294967296 }
    ensures { result
        ≡ found (offence (length text.now) (lexemes mode text.now) (judge mode 0 start (lexemes mode text.now))) }
{
    let table = laid_out();
    let moves = laid_moves();
    let mut c = 0;
    let mut d = 0;
    let mut at = 0;
    // A cursor, and no counted loop: its step is the token's.
    loop {
        let t = token_by(mode, text, at, &table);
        if t.kind == Kind::End {
            if finished(c, d) {
                return None;
            }
            return Some(refuse(2, text.len()));
        }
        let Some(n) = next(c, d, class(t.kind), &moves) else {
            return Some(refuse(2, t.start));
        };
        if over(mode, d, t.kind, t.size) {
            return Some(refuse(3, t.start));
        }
        d = open_after(d, t.kind);
        c = n;
        at = t.next;
    }
}
