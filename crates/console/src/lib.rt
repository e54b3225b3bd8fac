// What the programs over the public calls have in common: the grammar's file, standard input and the line of a refusal (01, Cases).
#![tactic(auto)]

ghost use Rattle.std.specs.Prelude.{◌≡◌, length, replicate};

use std::fs::File;
use std::os::fd::AsRawFd;

// The file `grammar.peg` of the folder that the program runs in, opened for reading; none where it cannot be.
pub fn open_grammar(rt: &HostRuntime) -> Option<File> {
    File::open(rt, "grammar.peg").ok()
}

// Room for a grammar text and one byte: a longer one is seen to be too long (01, refusal 1).
pub fn text_room() -> [u8; 16385]
    ensures { 16385 ≡ length result }
{
    [0; 16385]
}

// As many of one value as are wanted. A function of its own, so that proofs do not look into a million elements.
pub fn filled<T: Copy, const N: usize>(value: T) -> [T; N]
    ensures value { result ≡ replicate N value }
    ensures size { N ≡ length result }
{
    [value; N]
}

// The text of `grammar.peg` is answered, or `unreadable` is, where the file cannot be opened.
pub fn with_grammar<F: FnOnce(&[u8]) + Drop>(rt: &HostRuntime, answer: F)
    requires { F.IsAlwaysCallable answer }
{
    let Some(file) = open_grammar(rt) else {
        unreadable();
        return;
    };
    let mut text = text_room();
    let n = io::read_full(file.as_raw_fd(), &mut text);
    answer(&text[..n]);
}

// Standard input is answered. A text longer than 65,535 bytes is seen to be too long from the first 65,536 (01, refusal 9).
pub fn with_input<F: FnOnce(&[u8])>(answer: F)
    requires { F.IsAlwaysCallable answer }
{
    let mut input = io::large_buffer();
    let n = io::read_full(0, &mut input);
    answer(&input[..n]);
}

// Printing goes to descriptor 1 by `io`: `println!` would be no plainer, since every function that prints would take the handle and hand up an error.

// The first n bytes of a room that has as many.
pub fn print_front(room: &[u8], n: usize) {
    if let Some(front) = room.get(..n) {
        io::write_all(1, front);
    }
}

pub fn line_end() {
    io::write_all(1, b"\n");
}

// A number behind a word.
pub fn number(n: usize) {
    io::write_all(1, b" ");
    io::print_decimal(1, n as u64);
}

pub fn refusal(number_is: usize, place: usize) {
    io::write_all(1, b"refused");
    number(number_is);
    number(place);
}

// The whole line of a refusal.
pub fn refused(number_is: usize, place: usize) {
    refusal(number_is, place);
    line_end();
}

pub fn unreadable() {
    io::write_all(1, b"unreadable\n");
}
