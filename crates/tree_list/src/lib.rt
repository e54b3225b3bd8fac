// Whether lent words are the preorder list of a tree (02, par. 1, refusal 15), and the list handed out node by node.
// Lent words may hold anything.
#![tactic(auto)]

ghost use Rattle.std.specs.Prelude.{◌<◌, ◌≡◌, MatchOption};
ghost use Rattle.std.proofs.Math.Option.{none, some};
ghost use Rattle.match_meaning.specs.Meaning.{nd};
ghost use Rattle.tree_list.specs.Preorder.{gap, bad_node};
ghost use Rattle.tree_list.specs.Handing.{node_step_at};
ghost use Rattle.tree_list.specs.steps.Gaps.{admits_in, Admitted};
ghost use Rattle.tree_list.specs.steps.Reading.{NodeRead};

use match_list::{DEPTH, END, NODE_WORDS, START, SYMBOL};

// A node of a list.
#[derive(Clone, Copy)]
pub struct Node {
    pub symbol: usize,
    pub start: usize,
    pub end: usize,
    pub depth: usize,
}

// The next node, if there is one, and the place behind it.
// `found` beside the rest, and no Option: gurkenmond hands this answer out, and docs/ and the programs name its parts.
#[derive(Clone, Copy)]
pub struct NodeStep {
    pub found: bool,
    pub node: Node,
    pub next: usize,
}

// The lent node words and a place in them, in nodes (01, Required forms by place).
#[derive(Clone, Copy)]
pub struct NodeReader<'a> {
    pub words: &'a [u32],
    pub at: usize,
}

// The longest input (01, refusal 9).
pub const INPUT_MOST: usize = 65535;

// Two words for each depth that a node can have, and for the one below the deepest.
pub const GAPS: usize = 514;

// The deepest node.
const DEEPEST: usize = 255;

// Whether node k may be x, so many depths being possible for it and the gap of its own going from `from` to `to`: depth 0 for the first node and for no other.
fn may_be(depths: usize, symbols: usize, k: usize, x: Node, from: usize, to: usize) -> bool
    ensures { result ≡ admits_in symbols depths (gap from to) k (nd x.symbol x.start x.end x.depth) }
{
    (k == 0) == (x.depth == 0)
        && x.depth <= DEEPEST
        && x.depth < depths
        && x.symbol < symbols
        && x.start <= x.end
        && from <= x.start
        && x.end <= to
}

// Whether node k may be x, so many depths being possible for it; if so the gaps are those behind it. They are words in one run, as `Admitted` says them.
pub fn admit(gaps: &mut [u32; GAPS], depths: usize, symbols: usize, k: usize, x: Node) -> bool
    requires { (x.start < 4294967296) × (x.end < 4294967296) }
    ensures { Admitted symbols k (nd x.symbol x.start x.end x.depth) depths gaps.old gaps.new result }
{
    let Node {
        start,
        end,
        depth,
        ..
    } = x;
    if DEEPEST < depth {
        return false;
    }
    let from = base_words::word(gaps, 2 * depth);
    let to = base_words::word(gaps, 2 * depth + 1);
    if !may_be(depths, symbols, k, x, from, to) {
        return false;
    }
    base_words::put(gaps, 2 * depth, end);
    base_words::put(gaps, 2 * depth + 2, start);
    base_words::put(gaps, 2 * depth + 3, end);
    true
}

// Node k of lent words.
fn node_at(words: &[u32], k: usize) -> Node
    requires { k < 4611686018427387904 }
    ensures { NodeRead words.now k result }
{
    let i = NODE_WORDS * k;
    Node {
        symbol: base_words::word(words, i + SYMBOL),
        start: base_words::word(words, i + START),
        end: base_words::word(words, i + END),
        depth: base_words::word(words, i + DEPTH),
    }
}

// The first node at which the words are no list, for so many symbols and an input of n bytes.
pub fn bad_node(nodes: &[u32], symbols: usize, n: usize) -> Option<usize>
    requires { n < 4294967296 }
    ensures { MatchOption result (bad_node symbols n nodes.now ≡ none) (λ k. bad_node symbols n nodes.now ≡ some k) }
{
    let room = nodes.len() / NODE_WORDS;
    let mut gaps = [0; GAPS];
    gaps[1] = n as u32;
    let mut depths = 1;
    for k in 0..room {
        let x = node_at(nodes, k);
        if !admit(&mut gaps, depths, symbols, k, x) {
            return Some(k);
        }
        depths = x.depth + 2;
    }
    if room == 0 || NODE_WORDS * room < nodes.len() {
        return Some(room);
    }
    None
}

// Node `at` of lent words, and the place behind it.
pub fn node_step(words: &[u32], at: usize) -> NodeStep
    ensures { result ≡ node_step_at words.now at }
{
    if words.len() / NODE_WORDS <= at {
        return NodeStep {
            found: false,
            node: Node {
                symbol: 0,
                start: 0,
                end: 0,
                depth: 0,
            },
            next: at,
        };
    }
    NodeStep {
        found: true,
        node: node_at(words, at),
        next: at + 1,
    }
}

// A reader at the first node.
pub fn node_reader<'a>(words: &'a [u32]) -> NodeReader<'a>
    ensures { (result.words ≡ words.entry) × (result.at ≡ 0) }
{
    NodeReader { words, at: 0 }
}

// The node at the reader's place.
pub fn next_node<'a>(r: NodeReader<'a>) -> NodeStep
    ensures { result ≡ node_step_at r.entry.words.now r.entry.at }
{
    node_step(r.words, r.at)
}

// The reader behind that node.
pub fn behind_node<'a>(r: NodeReader<'a>) -> NodeReader<'a>
    ensures { (result.words ≡ r.entry.words) × (result.at ≡ (node_step_at r.entry.words.now r.entry.at).next) }
{
    NodeReader {
        words: r.words,
        at: node_step(r.words, r.at).next,
    }
}
