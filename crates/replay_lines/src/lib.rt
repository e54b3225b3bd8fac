// A line of questions: its fields are words apart by one space, bytes in hexadecimal, decimal numbers.
#![tactic(auto)]

pub mod buffers;

ghost use Rattle.std.specs.Prelude.{◌+◌, ◌≤◌, ◌<◌, ◌≡◌, length, drop, is_some, cond, IfSome, Some, None};
ghost use Rattle.io.specs.Counts.{IsPrefixLen};
ghost use Rattle.replay_lines.specs.steps.Fields.{until_of, after_of, begins, shifted_by, decimal_of, number_of, is_digit, all_digits, bytes_of};

// The largest number that a field may have.
pub const NUMBER_MOST: usize = 4294967295;

// The fields of a line that are still to be taken: those from `at` on.
#[derive(Clone, Copy)]
pub struct Fields<'a> {
    pub line: &'a [u8],
    pub at: usize,
}

impl Fields<'_> {
    // Whether the word comes next; then it is taken.
    pub fn word(&mut self, word: &[u8]) -> bool
        ensures value { result ≡ begins word.now (drop self.old.at self.old.line.now) }
        ensures taken { self.new.at ≡ cond result (self.old.at + length word.now) self.old.at }
        ensures same_line { self.new.line.now ≡ self.old.line.now }
    {
        let comes = stands(self.line, self.at, word);
        if comes {
            self.at += word.len();
        }
        comes
    }

    // Where the next field begins and ends; it is taken.
    fn next(&mut self) -> (usize, usize)
        ensures from { result.0 ≡ self.old.at }
        ensures to { result.1 ≡ until_of self.old.line.now self.old.at }
        ensures taken { self.new.at ≡ after_of self.old.line.now self.old.at }
        ensures same_line { self.new.line.now ≡ self.old.line.now }
    {
        let from = self.at;
        self.at = after(self.line, from);
        (from, until(self.line, from))
    }

    // The next field's number; none where it has none, or one above `most`.
    pub fn number(&mut self, most: usize) -> Option<usize>
        ensures value { result ≡ number_of self.old.line.now self.old.at most }
        ensures bound { IfSome result (λ n. n ≤ most) }
        ensures taken { self.new.at ≡ after_of self.old.line.now self.old.at }
        ensures same_line { self.new.line.now ≡ self.old.line.now }
    {
        let from = self.at;
        self.at = after(self.line, from);
        number_at(self.line, from, most)
    }

    // Where the next field's bytes stand in hexadecimal; none where it is no bytes, or more than `most`. So that is seen before a room is laid out for them.
    pub fn hex(&mut self, most: usize) -> Option<(usize, usize)>
        ensures value { result ≡ cond (bytes_of self.old.line.now self.old.at (until_of self.old.line.now self.old.at) most)
            (Some (self.old.at, until_of self.old.line.now self.old.at)) None }
        ensures taken { self.new.at ≡ after_of self.old.line.now self.old.at }
        ensures same_line { self.new.line.now ≡ self.old.line.now }
    {
        let (from, to) = self.next();
        if is_bytes(self.line, from, to, most) {
            Some((from, to))
        } else {
            None
        }
    }

    // How many bytes the next field puts into the room; none where it is no bytes, or more than there is room for.
    pub fn bytes(&mut self, out: &mut [u8]) -> Option<usize>
        ensures variant { is_some result ≡ bytes_of self.old.line.now self.old.at (until_of self.old.line.now self.old.at) (length out.old) }
        ensures bound { IfSome result (λ n. IsPrefixLen n out.new) }
        ensures taken { self.new.at ≡ after_of self.old.line.now self.old.at }
        ensures same_line { self.new.line.now ≡ self.old.line.now }
    {
        let (from, to) = self.hex(out.len())?;
        Some(decode(self.line, from, to, out))
    }

    // How many words the next field puts into the room; none where it is no words, or more than there is room for.
    pub fn words(&mut self, out: &mut [u32]) -> Option<usize>
        ensures bound { IfSome result (λ n. IsPrefixLen n out.new) }
        ensures taken { self.new.at ≡ after_of self.old.line.now self.old.at }
        ensures same_line { self.new.line.now ≡ self.old.line.now }
    {
        let (from, to) = self.next();
        words(self.line, from, to, out)
    }
}

// The value of a hexadecimal digit.
fn digit(b: u8) -> Option<u8>
    ensures variant { is_some result ≡ is_digit b }
    ensures bound { IfSome result (λ d. d < 16) }
{
    match b {
        b'0'..=b'9' => Some(b - b'0'),
        b'a'..=b'f' => Some(b - b'a' + 10),
        _ => None,
    }
}

// Where the field that begins at `at` ends: at the next space or the line's end. A field past the line's end is empty.
pub fn until(s: &[u8], at: usize) -> usize
    ensures { result ≡ until_of s.now at }
{
    for i in at..s.len() {
        if s[i] == b' ' {
            return i;
        }
    }
    at.max(s.len())
}

// Where the field behind the one at `at` begins.
pub fn after(s: &[u8], at: usize) -> usize
    ensures { result ≡ after_of s.now at }
{
    let to = until(s, at);
    if to < s.len() { to + 1 } else { s.len() }
}

// Whether the word stands in the line from `at` on.
pub fn stands(s: &[u8], at: usize, word: &[u8]) -> bool
    ensures { result ≡ begins word.now (drop at s.now) }
{
    if s.len() < at {
        return word.is_empty();
    }
    s[at..].starts_with(word)
}

// Whether the field is bytes in hexadecimal, or `-` for none, and there are at most so many.
// Here and below a field is the line and two places in it, as what is promised takes it: `bytes_of s from to`, `decimal_of s from to`.
pub fn is_bytes(s: &[u8], from: usize, to: usize, most: usize) -> bool
    ensures { result ≡ bytes_of s.now from to most }
{
    if s.len() < to || to <= from {
        return false;
    }
    let size = to - from;
    if size == 1 {
        return s[from] == b'-';
    }
    size % 2 == 0 && size / 2 <= most && are_digits(&s[from..to])
}

fn are_digits(field: &[u8]) -> bool
    ensures { result ≡ all_digits field.now }
{
    field.iter().all(|b| digit(*b).is_some())
}

// A byte of two digits.
fn pair(high: u8, low: u8) -> u8 {
    digit(high).unwrap_or(0) * 16 + digit(low).unwrap_or(0)
}

// The bytes that stand in hexadecimal, as many as there is room for; of `-` none.
pub fn decode(s: &[u8], from: usize, to: usize, out: &mut [u8]) -> usize
    ensures { IsPrefixLen result out.new }
{
    if s.len() < to || to < from {
        return 0;
    }
    let n = out.len().min((to - from) / 2);
    for i in 0..n {
        out[i] = pair(s[from + 2 * i], s[from + 2 * i + 1]);
    }
    n
}

// The decimal number of a field; none where it has none, or a larger one than may be.
pub fn decimal(s: &[u8], from: usize, to: usize) -> Option<u32>
    ensures { result ≡ decimal_of s.now from to }
{
    if s.len() < to || to <= from {
        return None;
    }
    let mut v = 0;
    for b in &s[from..to] {
        v = shifted(v, *b)?;
    }
    Some(v)
}

// One digit more.
fn shifted(v: u32, b: u8) -> Option<u32>
    ensures { result ≡ shifted_by v b }
{
    match b {
        b'0'..=b'9' => v.checked_mul(10)?.checked_add(u32::from(b - b'0')),
        _ => None,
    }
}

// The number field at `at`, at most so large.
pub fn number_at(line: &[u8], at: usize, most: usize) -> Option<usize>
    ensures value { result ≡ number_of line.now at most }
    ensures bound { IfSome result (λ n. n ≤ most) }
{
    let n = decimal(line, at, until(line, at))? as usize;
    if n <= most { Some(n) } else { None }
}

// Where the number that begins at `at` in a field up to `to` ends: at the next `,` or the field's end.
fn comma(s: &[u8], at: usize, to: usize) -> usize {
    for i in at..to.min(s.len()) {
        if s[i] == b',' {
            return i;
        }
    }
    to
}

// The words of a field, numbers with `,` between, or `-` for none; none where it is something else, or has more than there is room for.
pub fn words(s: &[u8], from: usize, to: usize, out: &mut [u32]) -> Option<usize>
    ensures { IfSome result (λ n. IsPrefixLen n out.new) }
{
    if is_bytes(s, from, to, 0) {
        return Some(0);
    }
    let mut at = from;
    for n in 0..out.len() {
        let end = comma(s, at, to);
        out[n] = decimal(s, at, end)?;
        if to <= end {
            return Some(n + 1);
        }
        at = end + 1;
    }
    None
}
