// Every public call asked once, and its answer printed as a line of words and numbers (crate `replay` has the lines).
#![tactic(auto)]

use gurkenmond::Mode;

pub fn read(mode: Mode, text: &[u8]) {
    let r = gurkenmond::read(mode, text);
    replay_says::verdict(r.verdict, || {
        io::write_all(1, b"read");
        console::number(r.symbols);
        console::number(r.terminals);
        console::number(r.expressions);
    });
    console::line_end();
}

pub fn sets(mode: Mode, text: &[u8], e: usize) {
    let r = gurkenmond::sets(mode, text, e);
    replay_says::verdict(r.verdict, || {
        io::write_all(1, b"sets");
        replay_says::sets(r.sets);
        console::number(r.rounds);
    });
    console::line_end();
}

pub fn cannot_skip(mode: Mode, text: &[u8]) {
    let r = gurkenmond::cannot_skip(mode, text);
    replay_says::verdict(r.verdict, || {
        io::write_all(1, b"skip");
        replay_says::bits(r.word);
    });
    console::line_end();
}

pub fn match_input(mode: Mode, text: &[u8], input: &[u8], cells: &mut [u32], nodes: &mut [u32]) {
    let r = gurkenmond::match_input(mode, text, input, cells, nodes);
    replay_says::outcome(r.outcome);
    replay_says::words(b" ; cells", cells);
    replay_says::words(b" ; nodes", nodes);
    console::line_end();
}

pub fn lake_at(
    mode: Mode,
    text: &[u8],
    input: &[u8],
    cells: &mut [u32],
    lake: usize,
    place: usize,
) {
    let r = gurkenmond::lake_at(mode, text, input, cells, lake, place);
    replay_says::lake(r);
    replay_says::words(b" ; cells", cells);
    console::line_end();
}

pub fn write_own(mode: Mode, text: &[u8], out: &mut [u8]) {
    let w = gurkenmond::write_own(mode, text, out);
    replay_says::written(w, out);
    console::line_end();
}

pub fn write_plain(mode: Mode, text: &[u8], out: &mut [u8]) {
    let w = gurkenmond::write_plain(mode, text, out);
    replay_says::written(w, out);
    console::line_end();
}

pub fn symbol_name(mode: Mode, text: &[u8], symbol: usize, out: &mut [u8]) {
    let w = gurkenmond::symbol_name(mode, text, symbol, out);
    replay_says::written(w, out);
    console::line_end();
}
