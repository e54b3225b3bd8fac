// The questions on trees as JSON (02, par. 1): their fields read, and the public calls that answer them. The head of `replay/src/main.rt` has the lines.
#![tactic(auto)]

use gurkenmond::Mode;
use replay_lines::{Fields, buffers, decode};

fn write_json(mode: Mode, text: &[u8], input: &[u8], nodes: &[u32], out: &mut [u8]) {
    let w = gurkenmond::write_json(mode, text, input, nodes, out);
    replay_says::written(w, out);
    console::line_end();
}

fn read_json(mode: Mode, text: &[u8], input: &[u8], json: &[u8], nodes: &mut [u32]) {
    let r = gurkenmond::read_json(mode, text, input, json, nodes);
    replay_says::parsed(r);
    replay_says::words(b" ; nodes", nodes);
    console::line_end();
}

// The words' field comes next, and behind it the room for the text.
pub fn ask_json(mode: Mode, text: &[u8], input: &[u8], fields: &mut Fields) -> Option<()> {
    let mut nodes = buffers::nodes();
    let n = fields.words(&mut nodes)?;
    let room = fields.number(buffers::ROOM)?;
    let mut out = buffers::room();
    write_json(mode, text, input, &nodes[..n], &mut out[..room]);
    Some(())
}

// The JSON text stands in the line from `from` to `to`, and the room's field comes next, in words.
#[inline(never)]
fn ask_read(
    mode: Mode,
    text: &[u8],
    input: &[u8],
    (from, to): (usize, usize),
    fields: &mut Fields,
) -> Option<()> {
    let mut json = buffers::text();
    let n = decode(fields.line, from, to, &mut json);
    let room = fields.number(buffers::NODES)?;
    let mut nodes = buffers::nodes();
    read_json(mode, text, input, &json[..n], &mut nodes[..room]);
    Some(())
}

// The JSON text's field comes next, and behind it the room for nodes, in words.
pub fn ask_unjson(mode: Mode, text: &[u8], input: &[u8], fields: &mut Fields) -> Option<()> {
    let place = fields.hex(buffers::TEXT)?;
    ask_read(mode, text, input, place, fields)
}
