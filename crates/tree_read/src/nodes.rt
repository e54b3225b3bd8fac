// The nodes of a text, one behind the other, each judged where it stands (02, par. 1).
ghost use Rattle.std.specs.Prelude.{◌≤◌, ◌<◌, ◌≡◌, false, length};
ghost use Rattle.match_meaning.specs.Meaning.{nd};
ghost use Rattle.match_list.specs.Nodes.{put_node};
ghost use Rattle.write_leaves.specs.steps.Printed.{called};
ghost use Rattle.tree_json.specs.Reading.{parsed};
ghost use Rattle.tree_read.specs.steps.Walks.{Turned, Walked};

use crate::heads::{Then, go_on, read_head};
use grammar_table::Table;
use tree_list::{GAPS, Node};

// Before a node: its place in the text, its depth and number, and how many depths are possible for it.
#[derive(Clone, Copy)]
pub struct Stand {
    pub at: usize,
    pub depth: usize,
    pub number: usize,
    pub depths: usize,
}

// A node that was read, and how it goes on behind it.
#[derive(Clone, Copy)]
struct Turn {
    node: Node,
    then: Then,
}

// The node before which st stands, if a list can come of it. Here and in `walk` what is lent goes on as it came: `put_nodes`, which has to take it one by
// one, would make a struct of it for these two alone.
fn read_node(
    t: &Table,
    symbols: usize,
    input: &[u8],
    json: &[u8],
    gaps: &mut [u32; GAPS],
    st: Stand,
) -> Option<Turn>
    requires { (symbols ≤ 64) × (st.depth ≤ 256) }
    ensures { Turned (called false t.now) symbols input.now json.now gaps.old gaps.new st.depths st.number st.depth st.at result }
{
    let h = read_head(t, symbols, input, json, st.at)?;
    let node = Node {
        symbol: h.symbol,
        start: h.start,
        end: h.end,
        depth: st.depth,
    };
    if !tree_list::admit(gaps, st.depths, symbols, st.number, node) {
        return None;
    }
    let then = go_on(json, h.place, st.depth)?;
    Some(Turn { node, then })
}

// Node k is written. No words are so many that there is room for one with a number as large as that.
fn keep(nodes: &mut [u32], k: usize, x: Node)
    requires { (x.symbol < 4294967296) × (x.start < 4294967296) × (x.end < 4294967296) × (x.depth < 4294967296) }
    ensures { nodes.new ≡ put_node nodes.old k (nd x.symbol x.start x.end x.depth) }
{
    if k < 4611686018427387904 {
        match_list::put_node(nodes, k, x.symbol, x.start, x.end, x.depth);
    }
}

// How many nodes a text says, if it says a list; they are written as they are read, as far as there are words. Each node takes at least a byte.
pub fn walk(
    t: &Table,
    symbols: usize,
    input: &[u8],
    json: &[u8],
    nodes: &mut [u32],
) -> Option<usize>
    requires { (symbols ≤ 64) × (length input.now ≤ 65535) }
    ensures { Walked (parsed (called false t.now) symbols input.now json.now) nodes.old nodes.new result }
{
    let mut gaps: [u32; GAPS] = [0; GAPS];
    base_words::put(&mut gaps, 1, input.len());
    let mut st = Stand {
        at: 0,
        depth: 0,
        number: 0,
        depths: 1,
    };
    for _ in 0..json.len() {
        let Turn { node, then } = read_node(t, symbols, input, json, &mut gaps, st)?;
        keep(nodes, st.number, node);
        let number = st.number + 1;
        match then {
            Then::Last => return Some(number),
            Then::More { depth, place } => {
                st = Stand {
                    at: place,
                    depth,
                    number,
                    depths: node.depth + 2,
                };
            }
        }
    }
    None
}
