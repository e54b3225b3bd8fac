// The tokens of a grammar text (01, Notation): the token at a place, by its kind and places; what it holds is read by `chars` and `classes`.
#![tactic(auto)]

ghost use Rattle.std.specs.Prelude.{suc, ◌<◌, ◌≡◌, false, length, drop};
ghost use Rattle.std.proofs.Math.Option.{some};
ghost use Rattle.read_tokens.specs.Chars.{body, single};
ghost use Rattle.read_tokens.specs.Token.{pre, suf};
ghost use Rattle.read_tokens.specs.Tokens.{skip, name_span, literal_by, bracket, angle, pre_of, suf_of, token_at};
ghost use Rattle.read_tokens.specs.steps.Code.{kind_of, coded, named, laked, made, arrow_is, symbolic};

pub mod chars;
pub mod classes;
pub mod kinds;
pub mod names;

use chars::{byte_at, literal_at};
use classes::class_end;
use kinds::{ByteKind, ByteTable, kind_of, laid_out};
use names::{blanks, name_end};

// The two ways to read a grammar text (01, Notation, "Two modes").
#[derive(Clone, Copy)]
pub enum Mode {
    Lake,
    Plain,
}

// What a token is.
#[derive(Clone, Copy, PartialEq, Eq)]
pub enum Kind {
    End,
    Name,
    Lake,
    Any,
    Literal,
    Class,
    Amp,
    Bang,
    Query,
    Asterisk,
    Cross,
    Arrow,
    Slash,
    Opens,
    Closes,
    Bad,
}

impl Kind {
    // Whether it is a name or a lake.
    pub fn is_symbol(self) -> bool
        ensures { result ≡ symbolic self }
    {
        matches!(self, Kind::Name | Kind::Lake)
    }
}

// A token by its kind, its first byte's place, the place behind it, and how many bytes a name or a literal has.
#[derive(Clone, Copy)]
pub struct Token {
    pub kind: Kind,
    pub start: usize,
    pub next: usize,
    pub size: usize,
}

// A token that has no bytes of its own.
fn plain(kind: Kind, start: usize, next: usize) -> Token
    ensures { result ≡ made kind start next 0 }
{
    Token {
        kind,
        start,
        next,
        size: 0,
    }
}

fn prefix_of(b: u8) -> Kind
    ensures { result ≡ kind_of (some (pre (pre_of b))) }
{
    if b == b'&' { Kind::Amp } else { Kind::Bang }
}

fn suffix_of(b: u8) -> Kind
    ensures { result ≡ kind_of (some (suf (suf_of b))) }
{
    match b {
        b'?' => Kind::Query,
        b'*' => Kind::Asterisk,
        _ => Kind::Cross,
    }
}

// The name whose first byte stands at `at`.
fn name_token(text: &[u8], at: usize, table: &ByteTable) -> Token
    ensures { result ≡ coded (named at (name_span (drop at text.now))) }
{
    let next = name_end(text, at, table);
    Token {
        kind: Kind::Name,
        start: at,
        next,
        size: next - at,
    }
}

// Behind the `<` at `at`: "a lake is `<name>` without blanks inside".
fn lake_token(text: &[u8], at: usize, table: &ByteTable) -> Token
    requires { at < length text.now }
    ensures { result ≡ coded (laked at (drop (suc at) text.now)) }
{
    let from = at + 1;
    if text.len() <= from || kind_of(text[from], table) != ByteKind::Letter {
        return plain(Kind::Bad, at, from);
    }
    let end = name_end(text, from, table);
    if byte_at(text, end) != Some(b'>') {
        return plain(Kind::Bad, at, from);
    }
    Token {
        kind: Kind::Lake,
        start: at,
        next: end + 1,
        size: end - from,
    }
}

// The token that begins with the `<` at `at`: "`<` followed by `-` is the arrow"; plain mode has no lakes.
fn less_token(mode: Mode, text: &[u8], at: usize, table: &ByteTable) -> Token
    requires { at < length text.now }
    ensures { result ≡ coded (angle mode at (drop (suc at) text.now)) }
{
    let from = at + 1;
    if byte_at(text, from) == Some(b'-') {
        return plain(Kind::Arrow, at, at + 2);
    }
    match mode {
        Mode::Lake => lake_token(text, at, table),
        Mode::Plain => plain(Kind::Bad, at, from),
    }
}

// The literal whose opening quote q stands at `at`: an empty one is bad.
fn literal_token(text: &[u8], at: usize, q: u8) -> Token
    requires { at < length text.now }
    ensures { result ≡ coded (literal_by at (body q single 0 (suc at) (drop (suc at) text.now))) }
{
    let from = at + 1;
    match literal_at(text, from, q) {
        Some(l) if l.count != 0 => Token {
            kind: Kind::Literal,
            start: at,
            next: l.next,
            size: l.count,
        },
        _ => plain(Kind::Bad, at, from),
    }
}

// The class whose `[` stands at `at`.
fn class_token(mode: Mode, text: &[u8], at: usize) -> Token
    requires { at < length text.now }
    ensures { result ≡ coded (bracket mode at (drop (suc at) text.now)) }
{
    let mut marks = [false; 256];
    match class_end(mode, text, at, &mut marks) {
        Some(next) => plain(Kind::Class, at, next),
        None => plain(Kind::Bad, at, at + 1),
    }
}

// The token at a place or, where blanks stand there, behind them, by the table of kinds that is lent: whoever passes over many tokens lays it out once.
pub fn token_by(mode: Mode, text: &[u8], at: usize, table: &ByteTable) -> Token
    ensures { result ≡ coded (token_at mode text.now at) }
{
    let i = blanks(text, at, table);
    if text.len() <= i {
        return plain(Kind::End, i, i);
    }
    let b = text[i];
    let n = i + 1;
    match kind_of(b, table) {
        ByteKind::Letter => name_token(text, i, table),
        ByteKind::Open => plain(Kind::Opens, i, n),
        ByteKind::Close => plain(Kind::Closes, i, n),
        ByteKind::Slash => plain(Kind::Slash, i, n),
        ByteKind::Prefix => plain(prefix_of(b), i, n),
        ByteKind::Suffix => plain(suffix_of(b), i, n),
        ByteKind::Dot => plain(Kind::Any, i, n),
        ByteKind::Quote => literal_token(text, i, b),
        ByteKind::Class => class_token(mode, text, i),
        ByteKind::Less => less_token(mode, text, i, table),
        ByteKind::Other | ByteKind::Blank | ByteKind::Digit | ByteKind::Hash => {
            plain(Kind::Bad, i, n)
        }
    }
}

// The same where one token is wanted.
pub fn token_at(mode: Mode, text: &[u8], at: usize) -> Token
    ensures { result ≡ coded (token_at mode text.now at) }
{
    token_by(mode, text, at, &laid_out())
}

// The first place from `at` on that has no space.
fn spaces(text: &[u8], at: usize) -> usize
    ensures { skip false result (drop result text.now) ≡ skip false at (drop at text.now) }
{
    for i in at..text.len() {
        if text[i] != b' ' {
            return i;
        }
    }
    at.max(text.len())
}

// Whether the token at a place is the arrow. It is asked of every name, and mostly the arrow stands there or behind a space: no table is laid out then.
pub fn arrow_at(mode: Mode, text: &[u8], at: usize) -> bool
    ensures { result ≡ arrow_is (token_at mode text.now at).is }
{
    let i = spaces(text, at);
    if byte_at(text, i) == Some(b'<') {
        return byte_at(text, i + 1) == Some(b'-');
    }
    token_at(mode, text, i).kind == Kind::Arrow
}
