// The questions on records and places (02, par. 2): their fields read, and the public calls that answer them. The head of `replay/src/main.rt` has the lines.
#![tactic(auto)]

use gurkenmond::{Mode, Summary, Summed};
use replay_lines::{Fields, NUMBER_MOST, buffers, decode};

// So many records can be lent.
const RECORDS: usize = 96;

// What stands in a lent record before a call: no symbol has a node and is absent.
const LENT: Summary = Summary {
    nodes: 1,
    bytes: 0,
    first: 0,
    last: 0,
    present: false,
};

// One that is as it was lent is `x`.
fn record(s: &Summary) {
    if !s.present && s.nodes == LENT.nodes {
        io::write_all(1, b" x");
        return;
    }
    io::write_all(1, b" ");
    for n in [s.nodes, s.bytes, s.first, s.last] {
        io::print_decimal(1, n as u64);
        io::write_all(1, b":");
    }
    io::print_decimal(1, u64::from(s.present));
}

fn answer(a: Summed) {
    replay_says::verdict(a.verdict, || {
        io::write_all(1, b"summary");
        console::number(a.symbols);
    });
}

fn summarise(mode: Mode, text: &[u8], input: &[u8], nodes: &[u32], records: &mut [Summary]) {
    answer(gurkenmond::summarise(mode, text, input, nodes, records));
    io::write_all(1, b" ; records");
    for s in &*records {
        record(s);
    }
    console::line_end();
}

// The words' field comes next, and behind it the number of records.
pub fn ask_summary(mode: Mode, text: &[u8], input: &[u8], fields: &mut Fields) -> Option<()> {
    let mut nodes = buffers::nodes();
    let n = fields.words(&mut nodes)?;
    let room = fields.number(RECORDS)?;
    let mut records = [LENT; RECORDS];
    summarise(mode, text, input, &nodes[..n], &mut records[..room]);
    Some(())
}

fn line_and_column(input: &[u8], position: usize) {
    let s = gurkenmond::line_and_column(input, position);
    replay_says::verdict(s.verdict, || {
        io::write_all(1, b"at");
        console::number(s.line);
        console::number(s.column);
    });
    console::line_end();
}

// The input stands in the line from `from` to `to`, and the position's field comes next.
#[inline(never)]
fn ask_place((from, to): (usize, usize), fields: &mut Fields) -> Option<()> {
    let mut input = buffers::input();
    let n = decode(fields.line, from, to, &mut input);
    let position = fields.number(NUMBER_MOST)?;
    line_and_column(&input[..n], position);
    Some(())
}

// The input's field comes next, and behind it the position.
pub fn ask_where(fields: &mut Fields) -> Option<()> {
    let place = fields.hex(buffers::INPUT)?;
    ask_place(place, fields)
}
