// Blanks and names (01, Notation).
ghost use Rattle.std.specs.Prelude.{◌+◌, ◌≡◌, false, length, drop};
ghost use Rattle.read_tokens.specs.Tokens.{blank_by, skip, name_byte, name_span};
ghost use Rattle.read_tokens.specs.steps.Bytes.{opened};

use crate::kinds::{ByteKind, ByteTable, kind_of};

// Whether a comment is open behind the byte b, if it is a blank; none: a token begins. A comment goes "up to the next CR or LF".
// `inside` is the state of that walk, which `blank_by` takes too.
fn blank_of(inside: bool, b: u8, table: &ByteTable) -> Option<bool>
    ensures { result ≡ opened (blank_by inside b) }
{
    if inside {
        return Some(!matches!(b, b'\n' | b'\r'));
    }
    match kind_of(b, table) {
        ByteKind::Blank => Some(false),
        ByteKind::Hash => Some(true),
        _ => None,
    }
}

// The first place from `at` on that is no blank.
pub fn blanks(text: &[u8], at: usize, table: &ByteTable) -> usize
    ensures { result ≡ skip false at (drop at text.now) }
{
    let mut inside = false;
    for i in at..text.len() {
        let Some(open) = blank_of(inside, text[i], table) else {
            return i;
        };
        inside = open;
    }
    at.max(text.len())
}

fn in_name(b: u8, table: &ByteTable) -> bool
    ensures { result ≡ name_byte b }
{
    matches!(kind_of(b, table), ByteKind::Letter | ByteKind::Digit)
}

// The place behind the name bytes that stand from `from` on.
pub fn name_end(text: &[u8], from: usize, table: &ByteTable) -> usize
    ensures { result ≡ from + length (name_span (drop from text.now)) }
{
    for i in from..text.len() {
        if !in_name(text[i], table) {
            return i;
        }
    }
    from.max(text.len())
}
