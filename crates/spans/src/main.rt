// Matches standard input by the lake grammar in the file `grammar.peg` and prints the spans (01, Cases):
//   match TAKEN, then a line START END DEPTH NAME for each node; none; refused NUMBER PLACE; unreadable if the file cannot be opened.
// All that it prints comes from the public calls: a node has its symbol's number alone, and `symbol_name` is asked once for each symbol that occurs.
#![tactic(auto)]

use gurkenmond::{Mode, Outcome};

// Symbols of a grammar (01, Notation).
const SYMBOLS: usize = 64;

// Bytes of a name: 32, and `<` and `>` of a lake.
const NAME_MOST: usize = 34;

const CELLS: usize = 16384;

// Words of 1,024 nodes.
const WORDS: usize = 4096;

// A symbol's name.
#[derive(Clone, Copy)]
struct Name {
    bytes: [u8; NAME_MOST],
    size: usize,
}

impl Name {
    fn of(text: &[u8], symbol: usize) -> Name {
        let mut bytes = [0; NAME_MOST];
        let w = gurkenmond::symbol_name(Mode::Lake, text, symbol, &mut bytes);
        Name {
            bytes,
            size: w.bytes,
        }
    }

    fn print(&self) {
        console::print_front(&self.bytes, self.size);
    }
}

fn print_word(word: u32) {
    io::print_decimal(1, u64::from(word));
    io::write_all(1, b" ");
}

// The lines of so many nodes, as far as there are words. A name is asked for once, and 64 at most, so that the time is that of nodes and grammar.
fn print_nodes(text: &[u8], nodes: &[u32], count: usize) {
    let mut names = [None; SYMBOLS];
    for node in nodes.chunks_exact(4).take(count) {
        let &[symbol, start, end, depth] = node else {
            return;
        };
        let symbol = symbol as usize;
        if SYMBOLS <= symbol {
            return;
        }
        let name = match names[symbol] {
            Some(name) => name,
            None => Name::of(text, symbol),
        };
        names[symbol] = Some(name);
        print_word(start);
        print_word(end);
        print_word(depth);
        name.print();
        console::line_end();
    }
}

fn print_match(text: &[u8], taken: usize, nodes: &[u32], count: usize) {
    io::write_all(1, b"match");
    console::number(taken);
    console::line_end();
    print_nodes(text, nodes, count);
}

// A match of its own, as in each program: `console` knows none of the public calls.
fn answer(text: &[u8], input: &[u8]) {
    let mut cells = [0; CELLS];
    let mut nodes = [0; WORDS];
    let m = gurkenmond::match_input(Mode::Lake, text, input, &mut cells, &mut nodes);
    match m.outcome {
        Outcome::Matched(taken) => print_match(text, taken, &nodes, m.nodes),
        Outcome::NoMatch => {
            io::write_all(1, b"none\n");
        }
        Outcome::Refused { number, place } => console::refused(number, place),
    }
}

fn main(rt: HostRuntime) {
    console::with_grammar(&rt, |text| console::with_input(|input| answer(text, input)));
}
