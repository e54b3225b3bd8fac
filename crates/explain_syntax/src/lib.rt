// What stopped the reading at a token, and what was wanted there (01, refusal 2).
#![tactic(auto)]

use explain_faults::Fault;
use explain_shown::say;
use explain_walks::{Before, Wanted};
use read_tokens::Kind;
use read_tokens::chars::byte_at;

// The token at a place, in backquotes.
pub fn say_token(text: &[u8], at: usize) {
    let t = explain_walks::token_at(text, at);
    explain_shown::print_token(text, t.start, t.next);
}

fn say_more(depth: usize) {
    if depth == 0 {
        say(b"another part or a rule");
    } else {
        say(b"a `)` or another part");
    }
}

fn say_wanted(b: Before) {
    match b.wanted {
        Wanted::Rule => say(b"a rule"),
        Wanted::Arrow => say(b"`<-`"),
        Wanted::Part => say(b"a name, a lake, a literal, a class, `.`, `(`, `&` or `!`"),
        Wanted::Primary => say(b"a name, a lake, a literal, a class, `.` or `(`"),
        Wanted::More => say_more(b.depth),
    }
}

// What a literal or a class has, from a place to another, that it may not have.
fn say_has(before: &[u8], text: &[u8], from: usize, to: usize, behind: &[u8]) {
    say(before);
    say(b" has ");
    explain_shown::print_token(text, from, to);
    say(behind);
}

fn say_literal(text: &[u8], at: usize) {
    match explain_faults::of_literal(text, at) {
        Fault::Empty => say(b"an empty literal stands here"),
        Fault::Escape { from, to } => {
            say_has(b"the literal here", text, from, to, b", which is no escape")
        }
        _ => say(b"a literal begins here that is not finished"),
    }
}

fn say_class(text: &[u8], at: usize) {
    match explain_faults::of_class(text, at) {
        Fault::Empty => say(b"an empty class stands here"),
        Fault::Escape { from, to } => {
            say_has(b"the class here", text, from, to, b", which is no escape")
        }
        Fault::Reversed { from, to } => {
            say_has(b"the class here", text, from, to, b", which runs backwards")
        }
        Fault::Byteless => say(b"the class here has no byte"),
        Fault::Unfinished => say(b"a class begins here that is not finished"),
    }
}

fn say_byte(b: u8) {
    say(b"byte ");
    io::print_decimal(1, u64::from(b));
}

// A byte with which no token begins.
fn say_other(text: &[u8], at: usize) {
    let Some(b) = byte_at(text, at) else {
        return;
    };
    if matches!(b, b' '..=b'~') {
        say_token(text, at);
    } else {
        say_byte(b);
    }
    say(b" stands there, which begins nothing");
}

// Of what begins as a token at a place and is none.
fn say_bad(text: &[u8], at: usize) {
    match byte_at(text, at) {
        Some(b'\'' | b'"') => say_literal(text, at),
        Some(b'[') => say_class(text, at),
        Some(b'<') => say(b"`<` begins neither a lake nor `<-`"),
        _ => say_other(text, at),
    }
}

fn say_stands(text: &[u8], at: usize) {
    let t = explain_walks::token_at(text, at);
    match t.kind {
        Kind::End => say(b"the text ends there"),
        Kind::Bad => say_bad(text, at),
        _ => {
            explain_shown::print_token(text, t.start, t.next);
            say(b" stands there");
        }
    }
}

// Whether the arrow at a place makes a name before it, of this kind, a rule's: then the rule before that is not finished.
fn is_rule(text: &[u8], at: usize, kind: Kind) -> bool {
    kind.is_symbol() && explain_walks::token_at(text, at).kind == Kind::Arrow
}

fn say_unfinished(text: &[u8], name: usize) {
    say_wanted(explain_walks::stands_before(text, name));
    say(b" is wanted before ");
    say_token(text, name);
    say(b", which begins a rule");
}

// Whether what stands at a place would be right there, a part, if it were whole.
fn is_broken(text: &[u8], at: usize, wanted: Wanted) -> bool {
    match wanted {
        Wanted::Rule | Wanted::Arrow => false,
        Wanted::Part | Wanted::Primary | Wanted::More => is_broken_part(text, at),
    }
}

fn is_broken_part(text: &[u8], at: usize) -> bool {
    explain_walks::token_at(text, at).kind == Kind::Bad
        && matches!(byte_at(text, at), Some(b'\'' | b'"' | b'<' | b'['))
}

// The sentence for refusal 2 at a token.
pub fn say_offending(text: &[u8], at: usize) {
    let b = explain_walks::stands_before(text, at);
    if is_rule(text, at, b.kind) {
        say_unfinished(text, b.start);
        return;
    }
    if is_broken(text, at, b.wanted) {
        say_bad(text, at);
        return;
    }
    say_wanted(b);
    say(b" is wanted here, and ");
    say_stands(text, at);
}
