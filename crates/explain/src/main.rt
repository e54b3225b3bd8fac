// Says where the lake grammar in the file `grammar.peg` is refused, and why, to one who reads lines and columns:
//   LINE:COLUMN: SENTENCE, then the line of the text, then a mark under the place; accepted; unreadable if the file cannot be opened.
// That it is refused, and where, comes from the public calls `read` and `line_and_column`; the words come from the tokens around the place.
#![tactic(auto)]

use explain_shown::say;
use gurkenmond::{Mode, Spot, Verdict};

mod words;

// The position that a refusal speaks of: of the whole grammar the first, of a symbol that of its rule.
fn position_of(text: &[u8], number: usize, place: usize) -> usize {
    match number {
        1..=5 => place,
        8 => explain_walks::symbol_at(text, place),
        _ => 0,
    }
}

// A grammar that is read whole has no more bytes than a text whose lines are counted.
fn print_place(at: Spot) {
    io::print_decimal(1, at.line as u64);
    say(b":");
    io::print_decimal(1, at.column as u64);
    say(b": ");
}

fn explain_refusal(text: &[u8], number: usize, place: usize) {
    let at = position_of(text, number, place);
    print_place(gurkenmond::line_and_column(text, at));
    words::sentence(text, number, place, at);
    console::line_end();
    explain_shown::show(text, at);
}

fn answer(text: &[u8]) {
    match gurkenmond::read(Mode::Lake, text).verdict {
        Verdict::Accepted => say(b"accepted\n"),
        Verdict::Refused { number, place } => explain_refusal(text, number, place),
    }
}

fn main(rt: HostRuntime) {
    console::with_grammar(&rt, answer);
}
