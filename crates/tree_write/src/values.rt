// Strings and numbers of a JSON text (02, par. 1).
ghost use Rattle.std.specs.Prelude.{◌≡◌, ◌-◌, ◌<◌, take, drop};
ghost use Rattle.write_leaves.specs.steps.Pen.{after};
ghost use Rattle.tree_json.specs.Json.{char_json, chars_json, number_json};
ghost use Rattle.tree_write.specs.steps.Values.{escaped, lead};

use tree_json::{digit, hex_digit};
use write_leaves::bytes::Pen;

// A byte by its number.
fn escape(pen: &mut Pen, c: u8)
    ensures { pen.new ≡ after pen.old (escaped c) }
{
    pen.emit_all(&[
        b'\\',
        b'u',
        b'0',
        b'0',
        hex_digit(c / 16),
        hex_digit(c % 16),
    ]);
}

// A byte of a string.
fn char(pen: &mut Pen, c: u8)
    ensures { pen.new ≡ after pen.old (char_json c) }
{
    match c {
        b'"' => pen.emit_all(b"\\\""),
        b'\\' => pen.emit_all(b"\\\\"),
        32..=126 => pen.emit(c),
        _ => escape(pen, c),
    }
}

// The input's bytes from p to q, as far as there are any.
pub fn chars(input: &[u8], pen: &mut Pen, p: usize, q: usize)
    ensures { pen.new ≡ after pen.old (chars_json (take (q - p) (drop p input.now))) }
{
    for i in p..q.min(input.len()) {
        char(pen, input[i]);
    }
}

// The digit of n that counts k, if n reaches k.
fn lead(pen: &mut Pen, n: usize, k: usize)
    requires { 0 < k }
    ensures { pen.new ≡ after pen.old (lead k n) }
{
    if k <= n {
        pen.emit(digit(k, n));
    }
}

// A number.
pub fn number(pen: &mut Pen, n: usize)
    ensures { pen.new ≡ after pen.old (number_json n) }
{
    lead(pen, n, 10000);
    lead(pen, n, 1000);
    lead(pen, n, 100);
    lead(pen, n, 10);
    pen.emit(digit(1, n));
}
