// A character of a literal or a class, and the loop over a literal (01, Notation, "Escapes").
ghost use Rattle.std.specs.Prelude.{◌+◌, ◌≤◌, ◌≡◌, length, drop, MatchOption, Some, option_map, slice_get, unwrap_or};
ghost use Rattle.read_tokens.specs.Chars.{octals, letters, char, body, single};
ghost use Rattle.read_tokens.specs.steps.Code.{Digit, char_of, counted};

// The byte at a place; none behind the text's end: a place needs no test of its own.
pub fn byte_at(text: &[u8], at: usize) -> Option<u8>
    ensures { result ≡ slice_get text.now at }
{
    text.get(at).copied()
}

// The byte that a character stands for, and how many bytes it takes in the text.
#[derive(Clone, Copy)]
pub struct Char {
    pub byte: u8,
    pub width: usize,
}

// What an octal digit is worth.
fn digit(b: Option<u8>) -> Option<u8>
    ensures { Digit (unwrap_or b 256) result }
{
    match b {
        Some(c @ b'0'..=b'7') => Some(c - b'0'),
        _ => None,
    }
}

// The greatest first one of three octal digits.
const FIRST_OCTAL: u8 = 2;

// Behind an octal digit that is worth x: "three digits (first 0 to 2), else two, else one", so that three digits are a byte.
fn octal_of(x: u8, d: Option<u8>, e: Option<u8>) -> Char
    requires { x ≤ 7 }
    ensures { Some result ≡ char_of (octals (48 + x) (unwrap_or d 256) (unwrap_or e 256)) }
{
    let Some(y) = digit(d) else {
        return Char { byte: x, width: 2 };
    };
    if x <= FIRST_OCTAL {
        if let Some(z) = digit(e) {
            return Char {
                byte: x * 64 + y * 8 + z,
                width: 4,
            };
        }
    }
    Char {
        byte: x * 8 + y,
        width: 3,
    }
}

// The byte that a letter or another sign stands for behind `\`.
fn letter_of(c: u8) -> Option<u8>
    ensures { option_map (λ b. record { byte = b; width = 2 }) result ≡ char_of (letters c) }
{
    match c {
        b'n' => Some(b'\n'),
        b'r' => Some(b'\r'),
        b't' => Some(b'\t'),
        b'\'' | b'"' | b'[' | b']' | b'\\' => Some(c),
        _ => None,
    }
}

// The character at a place.
pub fn char_at(text: &[u8], at: usize) -> Option<Char>
    ensures { result ≡ char_of (char (drop at text.now)) }
{
    let byte = byte_at(text, at)?;
    if byte != b'\\' {
        return Some(Char { byte, width: 1 });
    }
    let next = byte_at(text, at + 1);
    if let Some(x) = digit(next) {
        return Some(octal_of(x, byte_at(text, at + 2), byte_at(text, at + 3)));
    }
    let byte = letter_of(next?)?;
    Some(Char { byte, width: 2 })
}

// How many characters a literal has, and the place behind its closing quote.
#[derive(Clone, Copy)]
pub struct Count {
    pub count: usize,
    pub next: usize,
}

// The characters from `at` on, up to the quote q; none in a broken literal.
pub fn literal_at(text: &[u8], at: usize, q: u8) -> Option<Count>
    requires { at ≤ length text.now }
    ensures { result ≡ counted 0 (body q single 0 at (drop at text.now)) }
{
    let mut i = at;
    let mut count = 0;
    // A cursor, and no counted loop: its step is the character's.
    while i < text.len() {
        if text[i] == q {
            return Some(Count { count, next: i + 1 });
        }
        let c = char_at(text, i)?;
        count += 1;
        i += c.width;
    }
    None
}
