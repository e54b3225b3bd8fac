// Records of terminals and their numbers in the table. No copy of a literal is made: it is compared with a record while it is decoded from the text, and a new
// one is decoded straight into its record (02, par. 3).
ghost use Rattle.std.specs.Prelude.{◌+◌, ◌-◌, ◌*◌, ◌<◌, ◌≤◌, ◌≡◌, map, drop, length, replicate, MatchOption};
ghost use Rattle.std.proofs.lemmas.List.Edits.{sets};
ghost use Rattle.grammar.specs.Same.{same_bytes};
ghost use Rattle.read_tokens.specs.Chars.{char};
ghost use Rattle.read_tokens.specs.steps.Code.{class_at};
ghost use Rattle.grammar_table.specs.steps.Rows.{row_is, seek, Noted};
ghost use Rattle.grammar_table.specs.Table.{terminal_key, terminal_words, terminals_at, words_from};
ghost use Rattle.read_entries.specs.steps.Entries.{bit_of, leaf_at};
ghost use Rattle.read_entries.specs.steps.Leaves.{zeros, spelled, Inside, Stands, kind_of, length_of, content_of, words_of};

use base_words::{put, word};
use grammar_table::records::{leaf_at, terminals};
use grammar_table::{ANY, CLASS, CONTENT, LENGTH, LITERAL, TERMINAL_WORDS, TERMINALS_AT, least};
use read_tokens::chars::{Char, char_at};
use read_tokens::classes::class_end;
use read_tokens::{Kind, Mode};

// Words of a record behind its kind and its length: no literal that a text may have is longer, and a class has a mark for each byte.
const ROOM: usize = 256;

// The word of a table that counts its terminals, how many it has room for, and the count that says that there are more.
const COUNT: usize = 1;

const MOST: usize = 64;

const MORE: usize = 65;

// ── zeros ──
fn are_zeros(t: &[u32], at: usize, n: usize) -> bool
    requires { at + n < 4294967296 }
    ensures { result ≡ same_bytes (words_from t.now at n) (zeros n) }
{
    (0..n).all(|i| word(t, at + i) == 0)
}

fn put_zeros(t: &mut [u32], at: usize, n: usize)
    requires { at + n < 4294967296 }
    ensures { t.new ≡ sets t.old at (zeros n) }
{
    for i in 0..n {
        put(t, at + i, 0);
    }
}

// ── literals ──
// The character at a place; where there is none, which no literal has, its byte is 0 and it takes no room.
fn char_here(text: &[u8], at: usize) -> Char
    ensures { (result.byte ≡ (char (drop at text.now)).byte) × (result.width ≡ (char (drop at text.now)).width) }
{
    char_at(text, at).unwrap_or(Char { byte: 0, width: 0 })
}

// Whether the words from `at` on are the n characters of the text from `from` on, each decoded as it is compared, and zeros behind them.
fn is_literal(text: &[u8], from: usize, n: usize, t: &[u32], at: usize) -> bool
    requires { Inside text.now from n × (at + 256 < 4294967296) }
    ensures { result ≡ same_bytes (words_from t.now at 256) (spelled n (256 - n) text.now from) }
{
    let mut p = from;
    for k in 0..n {
        let c = char_here(text, p);
        if word(t, at + k) != usize::from(c.byte) {
            return false;
        }
        p += c.width;
    }
    are_zeros(t, at + n, ROOM - n)
}

// Stores them there.
fn put_literal(text: &[u8], from: usize, n: usize, t: &mut [u32], at: usize)
    requires { Inside text.now from n × (at + 256 < 4294967296) }
    ensures { t.new ≡ sets t.old at (spelled n (256 - n) text.now from) }
{
    let mut p = from;
    for i in 0..n {
        let c = char_here(text, p);
        put(t, at + i, usize::from(c.byte));
        p += c.width;
    }
    put_zeros(t, at + n, ROOM - n);
}

// ── classes ──
// The 256 marks of the class that begins at a place.
fn class_marks(mode: Mode, text: &[u8], start: usize) -> [bool; 256]
    ensures { result ≡ (class_at mode text.now start).marks }
{
    let mut marks = [false; 256];
    match class_end(mode, text, start, &mut marks) {
        Some(_) => marks,
        None => [false; 256],
    }
}

fn is_class(marks: &[bool; 256], t: &[u32], at: usize) -> bool
    requires { at + 256 < 4294967296 }
    ensures { result ≡ same_bytes (words_from t.now at 256) (map bit_of marks.now) }
{
    (0..ROOM).all(|i| word(t, at + i) == usize::from(marks[i]))
}

fn put_class(marks: &[bool; 256], t: &mut [u32], at: usize)
    requires { at + 256 < 4294967296 }
    ensures { t.new ≡ sets t.old at (map bit_of marks.now) }
{
    for (i, m) in marks.iter().enumerate() {
        put(t, at + i, usize::from(*m));
    }
}

// ── any of them ──
// A terminal as it stands in the text: a literal by its n characters from `from` on, a class by its marks.
#[derive(Clone, Copy)]
enum Leaf<'a> {
    Any,
    Literal {
        text: &'a [u8],
        from: usize,
        n: usize,
    },
    Class(&'a [bool; 256]),
}

impl Leaf<'_> {
    fn kind(&self) -> usize
        ensures { (result ≡ kind_of self.now) × (result ≤ 2) }
    {
        match self {
            Leaf::Any => ANY,
            Leaf::Literal { .. } => LITERAL,
            Leaf::Class(_) => CLASS,
        }
    }

    fn length(&self) -> usize
        requires { Stands self.now }
        ensures { (result ≡ length_of self.now) × (result ≤ 256) }
    {
        match self {
            Leaf::Any => 0,
            Leaf::Literal { n, .. } => *n,
            Leaf::Class(_) => ROOM,
        }
    }

    // Whether the words from `at` on are its content.
    fn has_content(&self, t: &[u32], at: usize) -> bool
        requires { Stands self.now × (at + 256 < 4294967296) }
        ensures { result ≡ same_bytes (words_from t.now at 256) (content_of self.now) }
    {
        match *self {
            Leaf::Any => are_zeros(t, at, ROOM),
            Leaf::Literal { text, from, n } => is_literal(text, from, n, t, at),
            Leaf::Class(marks) => is_class(marks, t, at),
        }
    }

    // Stores them there.
    fn put_content(&self, t: &mut [u32], at: usize)
        requires { Stands self.now × (at + 256 < 4294967296) }
        ensures { t.new ≡ sets t.old at (content_of self.now) }
    {
        match *self {
            Leaf::Any => put_zeros(t, at, ROOM),
            Leaf::Literal { text, from, n } => put_literal(text, from, n, t, at),
            Leaf::Class(marks) => put_class(marks, t, at),
        }
    }

    // Whether the record at b is the terminal: "a literal never equals a class", and `.` is neither.
    fn is_at(&self, t: &[u32], b: usize) -> bool
        requires { Stands self.now × (b + 258 < 4294967296) }
        ensures { result ≡ row_is t.now b (words_of self.now) terminal_key terminal_words }
    {
        word(t, b) == self.kind()
            && word(t, b + LENGTH) == self.length()
            && self.has_content(t, b + CONTENT)
    }

    // Stores the terminal in the record at b.
    fn put_at(&self, t: &mut [u32], b: usize)
        requires { Stands self.now × (b + 258 < 4294967296) }
        ensures { t.new ≡ sets t.old b (words_of self.now) }
    {
        put(t, b, self.kind());
        put(t, b + LENGTH, self.length());
        self.put_content(t, b + CONTENT);
    }

    // The number of the first of so many records that is the terminal. `grammar_table::find` and `note` take a record laid out in memory; here and below
    // none is,
    // since a terminal is compared as it is decoded.
    fn find(&self, t: &[u32], count: usize) -> Option<usize>
        requires { Stands self.now × (count ≤ 64) }
        ensures { let r = seek t.now (words_of self.now) terminal_key terminal_words terminals_at count in
            MatchOption result (count ≡ r) (λ i. (i ≡ r) × (i < count)) }
    {
        for i in 0..count {
            if self.is_at(t, leaf_at(i)) {
                return Some(i);
            }
        }
        None
    }

    // The number of the terminal, which is added where it is new: at most 64 are kept, and a count of 65 says that there are more.
    fn note(&self, t: &mut [u32]) -> usize
        requires { Stands self.now }
        ensures { Noted t.old t.new (words_of self.now) 1 terminal_key terminal_words terminals_at result }
    {
        let count = least(terminals(t), MOST);
        if let Some(r) = self.find(t, count) {
            return r;
        }
        if count < MOST {
            self.put_at(t, leaf_at(count));
            put(t, COUNT, count + 1);
        } else {
            put(t, COUNT, MORE);
        }
        count
    }
}

// "By first appearance": the terminal's number, and the terminal is added where it is new.
pub fn note_leaf(
    mode: Mode,
    text: &[u8],
    kind: Kind,
    start: usize,
    size: usize,
    t: &mut [u32],
) -> usize
    requires { (start < length text.now) × (length text.now ≤ 1048576) }
    ensures { Noted t.old t.new (leaf_at mode text.now kind start size) 1 terminal_key terminal_words terminals_at result }
{
    match kind {
        Kind::Class => {
            let marks = class_marks(mode, text, start);
            Leaf::Class(&marks).note(t)
        }
        Kind::Literal => Leaf::Literal {
            text,
            from: start + 1,
            n: least(size, ROOM),
        }
        .note(t),
        _ => Leaf::Any.note(t),
    }
}

// "`.` is 0 always".
pub fn note_any(text: &[u8], t: &mut [u32]) -> usize
    requires { length text.now ≤ 1048576 }
    ensures { Noted t.old t.new (replicate terminal_words 0) 1 terminal_key terminal_words terminals_at result }
{
    Leaf::Any.note(t)
}
