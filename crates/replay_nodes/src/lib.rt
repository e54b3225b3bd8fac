// The questions on node words alone, which have no refusal: their fields read, and the public calls that answer them. The head of `replay/src/main.rt` has
// the lines.
#![tactic(auto)]

use replay_lines::{Fields, NUMBER_MOST, buffers, decode};

fn node_sound(nodes: &[u32], k: usize, n: usize) {
    io::write_all(1, b"sound");
    console::number(usize::from(gurkenmond::node_sound(nodes, k, n)));
    console::line_end();
}

fn node_text(input: &[u8], nodes: &[u32], k: usize) {
    replay_says::part(gurkenmond::node_text(input, nodes, k));
    console::line_end();
}

// The words' field comes next, and behind it a node's number and the length of its input.
#[inline(never)]
pub fn ask_sound(fields: &mut Fields) -> Option<()> {
    let mut nodes = buffers::nodes();
    let n = fields.words(&mut nodes)?;
    let k = fields.number(NUMBER_MOST)?;
    let length = fields.number(NUMBER_MOST)?;
    node_sound(&nodes[..n], k, length);
    Some(())
}

// The input stands in the line from `from` to `to`, and the words' field comes next, and behind it a node's number.
#[inline(never)]
fn ask_text((from, to): (usize, usize), fields: &mut Fields) -> Option<()> {
    let mut input = buffers::input();
    let size = decode(fields.line, from, to, &mut input);
    let mut nodes = buffers::nodes();
    let n = fields.words(&mut nodes)?;
    let k = fields.number(NUMBER_MOST)?;
    node_text(&input[..size], &nodes[..n], k);
    Some(())
}

// The input's field comes next, and behind it the words and a node's number.
pub fn text_at(fields: &mut Fields) -> Option<()> {
    let place = fields.hex(buffers::INPUT)?;
    ask_text(place, fields)
}

// Every node that the words hand out.
fn hand_out(nodes: &[u32]) {
    io::write_all(1, b"handed");
    let mut at = 0;
    for _ in nodes {
        let s = gurkenmond::node_step(nodes, at);
        if s.found {
            replay_says::step(s);
        }
        at = s.next;
    }
    console::line_end();
}

// The words' field comes next.
#[inline(never)]
pub fn ask_handed(fields: &mut Fields) -> Option<()> {
    let mut nodes = buffers::nodes();
    let n = fields.words(&mut nodes)?;
    hand_out(&nodes[..n]);
    Some(())
}
