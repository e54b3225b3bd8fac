// The nodes of a list, one after the other (02, par. 1). The words may hold anything.
ghost use Rattle.std.specs.Prelude.{false, ◌++◌, ◌-◌, ◌≡◌, ◌<◌, take, drop};
ghost use Rattle.match_list.specs.Nodes.{room_of, node_at, nodes_at};
ghost use Rattle.write_leaves.specs.steps.Pen.{after};
ghost use Rattle.write_leaves.specs.steps.Printed.{called};
ghost use Rattle.tree_json.specs.Json.{head_json, closings, json_text};
ghost use Rattle.tree_write.specs.steps.Nodes.{name_member, span_members, text_member, behind_at};

use crate::values;
use match_list::{DEPTH, END, NODE_WORDS, START, SYMBOL};
use write_leaves::bytes::Pen;

// Symbol r's name.
fn name(t: &[u32], pen: &mut Pen, r: usize)
    requires { r < 4294967296 }
    ensures { pen.new ≡ after pen.old (name_member (called false t.now r)) }
{
    pen.emit_all(b"{\"name\":\"");
    pen.symbol(t, false, r);
    pen.emit(b'"');
}

// Where a node starts and ends.
fn span(pen: &mut Pen, p: usize, q: usize)
    ensures { pen.new ≡ after pen.old (span_members p q) }
{
    pen.emit_all(b",\"start\":");
    values::number(pen, p);
    pen.emit_all(b",\"end\":");
    values::number(pen, q);
}

// The input's part from p to q, up to where a node's children come.
fn part(input: &[u8], pen: &mut Pen, p: usize, q: usize)
    ensures { pen.new ≡ after pen.old (text_member (take (q - p) (drop p input.now))) }
{
    pen.emit_all(b",\"text\":\"");
    values::chars(input, pen, p, q);
    pen.emit_all(b"\",\"children\":[");
}

// Here and below what is lent goes on as it came: `json_text` names each, and each function takes no more of it than it reads.
// Node k up to its children.
fn head(t: &[u32], input: &[u8], nodes: &[u32], pen: &mut Pen, k: usize)
    requires { k < room_of nodes.now }
    ensures { pen.new ≡ after pen.old (head_json (called false t.now) input.now (node_at nodes.now k)) }
{
    let i = NODE_WORDS * k;
    let r = base_words::word(nodes, i + SYMBOL);
    let p = base_words::word(nodes, i + START);
    let q = base_words::word(nodes, i + END);
    name(t, pen, r);
    span(pen, p, q);
    part(input, pen, p, q);
}

// c nodes are closed.
fn close(pen: &mut Pen, c: usize)
    ensures { pen.new ≡ after pen.old (closings c) }
{
    for _ in 0..c {
        pen.emit_all(b"]}");
    }
}

// What stands between node k's head and the next, or the text's end.
fn behind(nodes: &[u32], pen: &mut Pen, k: usize)
    requires { k < room_of nodes.now }
    ensures { pen.new ≡ after pen.old (behind_at nodes.now k) }
{
    let child = base_words::word(nodes, NODE_WORDS * k + DEPTH) + 1;
    let j = k + 1;
    if j == nodes.len() / NODE_WORDS {
        close(pen, child);
        return;
    }
    let next = base_words::word(nodes, NODE_WORDS * j + DEPTH);
    if next == child {
        return;
    }
    // a depth beyond the child's closes nothing: no list that passed check 15 has such a node
    close(pen, child.saturating_sub(next));
    pen.emit(b',');
}

// Node k with what stands behind its head.
fn node(t: &[u32], input: &[u8], nodes: &[u32], pen: &mut Pen, k: usize)
    requires { k < room_of nodes.now }
    ensures { pen.new ≡ after pen.old (head_json (called false t.now) input.now (node_at nodes.now k) ++ behind_at nodes.now k) }
{
    head(t, input, nodes, pen, k);
    behind(nodes, pen, k);
}

// All nodes.
pub fn text(t: &[u32], input: &[u8], nodes: &[u32], pen: &mut Pen)
    ensures { pen.new ≡ after pen.old (json_text (called false t.now) input.now (nodes_at nodes.now 0 (room_of nodes.now))) }
{
    for k in 0..nodes.len() / NODE_WORDS {
        node(t, input, nodes, pen, k);
    }
}
