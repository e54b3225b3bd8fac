// A class, read into 256 marks (01, Notation, and "Required forms by place").
ghost use Rattle.std.specs.Prelude.{suc, ◌<◌, ◌≤◌, ◌+◌, ◌-◌, ◌≡◌, false, length, drop, replicate, IfSome, unwrap_or};
ghost use Rattle.read_tokens.specs.Chars.{listed, body};
ghost use Rattle.read_tokens.specs.Tokens.{some_true, class_token, class_by};
ghost use Rattle.read_tokens.specs.laws.Marks.{paint};
ghost use Rattle.read_tokens.specs.laws.Turning.{turn_from};
ghost use Rattle.read_tokens.specs.steps.Code.{item_of, Painted, caret_at, class_is, class_at, Filled};

use super::Mode;
use super::chars::{Char, byte_at, char_at};

// What a class lists at a place: the bytes lo to hi, and how many bytes of the text that takes.
#[derive(Clone, Copy)]
struct Item {
    lo: u8,
    hi: u8,
    width: usize,
}

// "After a character and `-` the next character ends the range, even `]`"; a reversed range is no item.
fn item_at(text: &[u8], at: usize) -> Option<Item>
    requires { at ≤ length text.now }
    ensures { (result ≡ item_of (listed (drop at text.now))) × IfSome result (λ i. (at + i.width ≤ length text.now) × (i.lo ≤ i.hi)) }
{
    let Char { byte: lo, width } = char_at(text, at)?;
    let dash = at + width;
    if byte_at(text, dash) != Some(b'-') {
        return Some(Item { lo, hi: lo, width });
    }
    let end = char_at(text, dash + 1)?;
    let hi = end.byte;
    if hi < lo {
        return None;
    }
    Some(Item {
        lo,
        hi,
        width: width + 1 + end.width,
    })
}

fn set_range(marks: &mut [bool; 256], lo: u8, hi: u8)
    requires { lo ≤ hi }
    ensures { marks.new ≡ paint lo (suc hi - lo) marks.old }
{
    marks[usize::from(lo)..=usize::from(hi)].fill(true);
}

// Sets what is listed from `at` on, up to the `]`; answers the place behind that, none for a bad class.
fn set_items(text: &[u8], at: usize, marks: &mut [bool; 256]) -> Option<usize>
    requires { at ≤ length text.now }
    ensures { Painted (body 93 listed 0 at (drop at text.now)) marks.old marks.new result }
{
    let mut i = at;
    // A cursor, and no counted loop: its step is the item's.
    while i < text.len() {
        if text[i] == b']' {
            return Some(i + 1);
        }
        let item = item_at(text, i)?;
        set_range(marks, item.lo, item.hi);
        i += item.width;
    }
    None
}

fn turn(marks: &mut [bool; 256])
    ensures { marks.new ≡ turn_from 0 256 marks.old }
{
    for mark in marks.iter_mut() {
        *mark = !*mark;
    }
}

// Whether a mark is set, faster where that at `hint` is.
fn some_set(marks: &[bool; 256], hint: u8) -> bool
    ensures { result ≡ some_true marks.now }
{
    marks[usize::from(hint)] || marks.contains(&true)
}

// "A class without bytes" is bad: the place behind it, or none. `hint`: a byte that it may have.
fn settled(marks: &[bool; 256], next: usize, hint: u8) -> Option<usize>
    requires { 0 < next }
    ensures { Filled (class_is (class_token (some_true marks.now) marks.now 0 next)) marks.now result }
{
    if some_set(marks, hint) {
        Some(next)
    } else {
        None
    }
}

// The class of what is listed from `at` on, or its complement, into marks of which none is set. "A class with nothing listed" is bad.
// `complement` is a property of the class, which `class_by` takes too: two functions would tell the same steps twice.
fn class_from(text: &[u8], at: usize, complement: bool, marks: &mut [bool; 256]) -> Option<usize>
    requires { (at ≤ length text.now) × (marks.old ≡ replicate 256 false) }
    ensures { Filled (class_is (class_by complement 0 (body 93 listed 0 at (drop at text.now)))) marks.new result }
{
    let first = byte_at(text, at)?;
    if first == b']' {
        return None;
    }
    let next = set_items(text, at, marks)?;
    if complement {
        turn(marks);
        return settled(marks, next, 0);
    }
    settled(marks, next, first)
}

// "A class that begins with `^` is the complement", in lake mode.
fn is_caret(mode: Mode, b: Option<u8>) -> bool
    ensures { result ≡ caret_at mode (unwrap_or b 256) }
{
    matches!((mode, b), (Mode::Lake, Some(b'^')))
}

// The place behind the class whose `[` stands at `at`, and its bytes into marks of which none is set; none for a bad one. The marks are lent, since a class is
// passed over more often than it is kept.
pub fn class_end(mode: Mode, text: &[u8], at: usize, marks: &mut [bool; 256]) -> Option<usize>
    requires { marks.old ≡ replicate 256 false }
    ensures { Filled (class_at mode text.now at) marks.new result }
{
    if text.len() <= at {
        return None;
    }
    let from = at + 1;
    if is_caret(mode, byte_at(text, from)) {
        return class_from(text, from + 1, true, marks);
    }
    class_from(text, from, false, marks)
}
