// Why a token that begins as a literal or a class is none (01, Notation). Read again from the left, since a bad token says no more than its first byte.
// The `while` of both counts nothing: the step is the character's, or the range's, and a `for` has one of its own.
#![tactic(auto)]

ghost use Rattle.std.specs.Prelude.{◌≤◌, ◌<◌, length, IfOk};

use explain_shown::whole;
use read_tokens::chars::{byte_at, char_at};

// It goes on to the text's end; holds nothing; has an escape that there is not; a range from a byte to a lower one; lists bytes, and has none.
#[derive(Clone, Copy)]
pub enum Fault {
    Unfinished,
    Empty,
    Escape { from: usize, to: usize },
    Reversed { from: usize, to: usize },
    Byteless,
}

// Of what stands at a place where no character does.
fn no_char(text: &[u8], at: usize) -> Fault {
    if text.len() <= at || text.len() - at < 2 {
        return Fault::Unfinished;
    }
    Fault::Escape {
        from: at,
        to: whole(text, at + 2),
    }
}

// Of the literal whose quote stands at `at`: one that ends is bad only if it is empty.
pub fn of_literal(text: &[u8], at: usize) -> Fault {
    let Some(q) = byte_at(text, at) else {
        return Fault::Unfinished;
    };
    let mut i = at + 1;
    while i < text.len() {
        if text[i] == q {
            return Fault::Empty;
        }
        let Some(c) = char_at(text, i) else {
            return no_char(text, i);
        };
        i += c.width;
    }
    Fault::Unfinished
}

// The place behind a range whose `-` stands at `dash`, and whose first character is the byte `lo` at `from`.
fn range_end(text: &[u8], from: usize, lo: u8, dash: usize) -> Result<usize, Fault>
    requires { dash < length text.now }
    ensures { IfOk result (λ n. (dash < n) × (n ≤ length text.now)) }
{
    let last = dash + 1;
    let Some(c) = char_at(text, last) else {
        return Err(no_char(text, last));
    };
    let to = last + c.width;
    if c.byte < lo {
        return Err(Fault::Reversed { from, to });
    }
    Ok(to)
}

// The place behind what a class lists at `at`.
fn listed_end(text: &[u8], at: usize) -> Result<usize, Fault>
    requires { at < length text.now }
    ensures { IfOk result (λ n. (at < n) × (n ≤ length text.now)) }
{
    let Some(c) = char_at(text, at) else {
        return Err(no_char(text, at));
    };
    let end = at + c.width;
    match byte_at(text, end) {
        Some(b'-') => range_end(text, at, c.byte, end),
        Some(_) => Ok(end),
        None => Err(Fault::Unfinished),
    }
}

// What is listed from `at` on, up to the `]`.
fn of_items(text: &[u8], at: usize) -> Fault {
    let mut i = at;
    while i < text.len() {
        if text[i] == b']' {
            return Fault::Byteless;
        }
        match listed_end(text, i) {
            Ok(end) => i = end,
            Err(fault) => return fault,
        }
    }
    Fault::Unfinished
}

fn of_listed(text: &[u8], at: usize) -> Fault {
    if byte_at(text, at) == Some(b']') {
        return Fault::Empty;
    }
    of_items(text, at)
}

// Of the class whose `[` stands at `at`.
pub fn of_class(text: &[u8], at: usize) -> Fault {
    if text.len() <= at {
        return Fault::Unfinished;
    }
    let from = at + 1;
    if byte_at(text, from) == Some(b'^') {
        return of_listed(text, from + 1);
    }
    of_listed(text, from)
}
