// Parts of the text as they are shown: a token within a sentence, and a line with a mark under a place.
#![tactic(auto)]

ghost use Rattle.std.specs.Prelude.{◌+◌, ◌≤◌, ◌<◌, length};

// A longer line is shown from so many bytes before the place to as many behind it.
const LINE_MOST: usize = 120;

const AROUND: usize = 60;

// Of a longer token so many bytes are shown.
const TOKEN_MOST: usize = 40;

// Bytes of a mark's line: what stands before the mark, the mark and the line end.
const MARK_ROOM: usize = 128;

const TAB: u8 = 9;

const LINE_FEED: u8 = 10;

const RETURN: u8 = 13;

fn print_part(text: &[u8], from: usize, to: usize) {
    if from <= to && to <= text.len() {
        io::write_all(1, &text[from..to]);
    }
}

// Whether a byte goes on with a character of UTF-8 that began before it.
fn goes_on(b: u8) -> bool {
    matches!(b, 128..=191)
}

// The first place from `at` on where a character of UTF-8 may begin: of one character at most three bytes are passed over.
pub fn whole(text: &[u8], at: usize) -> usize {
    let end = text.len().min(at.saturating_add(3));
    for i in at..end {
        if !goes_on(text[i]) {
            return i;
        }
    }
    at.max(end)
}

// ── a token ──
// The first line of what stands at `from`, without what is too long.
fn token_to(text: &[u8], from: usize, to: usize) -> usize {
    for i in from..to {
        if text.len() <= i || text[i] < 32 {
            return i;
        }
        if TOKEN_MOST <= i - from {
            return whole(text, i).min(to);
        }
    }
    to
}

pub fn print_token(text: &[u8], from: usize, to: usize) {
    let end = token_to(text, from, to);
    io::write_all(1, b"`");
    print_part(text, from, end);
    if end < to {
        io::write_all(1, b"..");
    }
    io::write_all(1, b"`");
}

// ── a line ──
fn line_from(text: &[u8], at: usize) -> usize
    requires { at ≤ length text.now }
    ensures { result ≤ at }
{
    for i in (0..at).rev() {
        if text[i] == LINE_FEED {
            return i + 1;
        }
    }
    0
}

fn line_feed(text: &[u8], at: usize) -> usize
    ensures { at ≤ result }
{
    for i in at..text.len() {
        if text[i] == LINE_FEED {
            return i;
        }
    }
    at.max(text.len())
}

// Where the line ends that begins at `from` and has its line feed, if any, at `to`: before a carriage return that stands before that.
fn line_to(text: &[u8], from: usize, to: usize) -> usize {
    if from < to && to < text.len() && text[to - 1] == RETURN {
        return to - 1;
    }
    to
}

fn shown_from(text: &[u8], from: usize, at: usize) -> usize
    requires { from ≤ at }
{
    if at - from <= AROUND {
        return from;
    }
    whole(text, at - AROUND)
}

fn shown_to(text: &[u8], at: usize, to: usize) -> usize {
    if to <= at || to - at <= AROUND {
        return to;
    }
    whole(text, at + AROUND)
}

// What stands under a byte before the mark. How long the mark's line is stands beside its array, here and below: no heap, fixed memory.
fn put_under(line: &mut [u8; MARK_ROOM], n: usize, b: u8) -> usize
    requires { n < 126 }
    ensures { result ≤ n + 1 }
{
    if goes_on(b) {
        return n;
    }
    if b == TAB {
        line[n] = TAB;
    }
    n + 1
}

fn print_mark(line: &mut [u8; MARK_ROOM], n: usize)
    requires { n < 127 }
{
    line[n] = b'^';
    line[n + 1] = LINE_FEED;
    console::print_front(line, n + 2);
}

// A mark under `at`, where the line is shown from `from` on.
fn print_under(text: &[u8], from: usize, at: usize) {
    let mut line = [b' '; MARK_ROOM];
    let mut n = 0;
    for i in from..at {
        if text.len() <= i || 126 <= n {
            return;
        }
        n = put_under(&mut line, n, text[i]);
    }
    print_mark(&mut line, n);
}

fn show_part(text: &[u8], from: usize, to: usize, at: usize) {
    print_part(text, from, to);
    console::line_end();
    print_under(text, from, at.min(to));
}

// The line of a position, or the part of it around the position, and a mark below.
pub fn show(text: &[u8], position: usize) {
    let at = position.min(text.len());
    let from = line_from(text, at);
    let to = line_to(text, from, line_feed(text, at));
    if to <= from {
        show_part(text, from, from, from);
    } else if to - from <= LINE_MOST {
        show_part(text, from, to, at);
    } else {
        show_part(text, shown_from(text, from, at), shown_to(text, at, to), at);
    }
}

pub fn say(words: &[u8]) {
    io::write_all(1, words);
}
