// Matches standard input by the lake grammar in the file `grammar.peg` and prints the tree of the match as JSON (02, par. 1), and nothing else; or, as
// `spans` does: none; refused NUMBER PLACE; unreadable if the file cannot be opened. All that it prints comes from the public calls.
#![tactic(auto)]

ghost use Rattle.std.specs.Prelude.{◌≤◌};

use console::filled;
use gurkenmond::{Mode, Outcome, Verdict};

// Room for what a class types: 22 symbols on 47 KB of text, 32,768 nodes, 2 MiB of JSON; all of it lies on a stack of 8 MiB.
const CELLS: usize = 1048576;

const NODES: usize = 32768;

const WORDS: usize = 131072;

const ROOM: usize = 2097152;

// The text of a list, or why there is none. Each program matches what it is answered itself: `console` knows none of the public calls.
fn print_tree(text: &[u8], input: &[u8], nodes: &[u32]) {
    let mut out: [u8; ROOM] = filled(0);
    let w = gurkenmond::write_json(Mode::Lake, text, input, nodes, &mut out);
    match w.verdict {
        Verdict::Accepted => console::print_front(&out, w.bytes),
        Verdict::Refused { number, place } => console::refused(number, place),
    }
}

// The words of so many nodes; there is room for no more.
fn words_of(count: usize) -> usize
    ensures { result ≤ 131072 }
{
    4 * count.min(NODES)
}

fn answer(text: &[u8], input: &[u8]) {
    let mut cells: [u32; CELLS] = filled(0);
    let mut nodes: [u32; WORDS] = filled(0);
    let m = gurkenmond::match_input(Mode::Lake, text, input, &mut cells, &mut nodes);
    match m.outcome {
        Outcome::Matched(_) => print_tree(text, input, &nodes[..words_of(m.nodes)]),
        Outcome::NoMatch => {
            io::write_all(1, b"none\n");
        }
        Outcome::Refused { number, place } => console::refused(number, place),
    }
}

fn main(rt: HostRuntime) {
    console::with_grammar(&rt, |text| console::with_input(|input| answer(text, input)));
}
