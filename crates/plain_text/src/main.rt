// Writes the plain text of the lake grammar in the file `grammar.peg` (01, Writing), or refused NUMBER PLACE, or unreadable if the file cannot be opened.
#![tactic(auto)]

use gurkenmond::{Mode, Verdict};

// A match of its own, as in each program: `console` knows none of the public calls.
fn answer(text: &[u8]) {
    let mut out = io::large_buffer();
    let w = gurkenmond::write_plain(Mode::Lake, text, &mut out);
    match w.verdict {
        Verdict::Accepted => console::print_front(&out, w.bytes),
        Verdict::Refused { number, place } => console::refused(number, place),
    }
}

fn main(rt: HostRuntime) {
    console::with_grammar(&rt, answer);
}
