// The node in lent words: where each of its words stands, one function that writes it and one that reads a word of it (01, Meaning of a match).
// Lent words that are read may hold anything.
#![tactic(auto)]

ghost use Rattle.std.specs.Prelude.{ℕ, ◌-◌, ◌≤◌, ◌<◌, ◌≡◌, length, take, drop};
ghost use Rattle.read_tokens.specs.Bounds.{node_words};
ghost use Rattle.match_meaning.specs.Meaning.{nd};
ghost use Rattle.match_list.specs.Nodes.{put_node, node_word, sound_at, Handed};

// How many words a node has.
pub const NODE_WORDS: usize = 4;
// The place of each in it.
pub const SYMBOL: usize = 0;

pub const START: usize = 1;

pub const END: usize = 2;

pub const DEPTH: usize = 3;

// The words of node k.
pub fn put_node(nodes: &mut [u32], k: usize, r: usize, p: usize, q: usize, d: usize)
    requires { (k < 4611686018427387904) × (r < 4294967296) × (p < 4294967296) × (q < 4294967296) × (d < 4294967296) }
    ensures { nodes.new ≡ put_node nodes.old k (nd r p q d) }
{
    let i = NODE_WORDS * k;
    base_words::put(nodes, i + SYMBOL, r);
    base_words::put(nodes, i + START, p);
    base_words::put(nodes, i + END, q);
    base_words::put(nodes, i + DEPTH, d);
}

// Word j of node k.
pub fn node_word(nodes: &[u32], k: usize, j: usize) -> usize
    requires { (k < 4611686018427387904) × (j < node_words) }
    ensures { result ≡ node_word nodes.now k j }
{
    base_words::word(nodes, NODE_WORDS * k + j)
}

// Whether node k lies whole in the words with start ≤ end ≤ n.
pub fn sound(nodes: &[u32], k: usize, n: usize) -> bool
    ensures { result ≡ sound_at nodes.now k n }
{
    if nodes.len() / NODE_WORDS <= k {
        return false;
    }
    let start = node_word(nodes, k, START);
    let end = node_word(nodes, k, END);
    start <= end && end <= n
}

// The text of node k, a part of the lent input; for an unsound node the empty part at 0.
pub fn text<'a>(input: &'a [u8], nodes: &[u32], k: usize) -> &'a [u8]
    ensures { Handed result.now result.ref_ptr input.now input.entry.ref_ptr nodes.now k }
{
    if !sound(nodes, k, input.len()) {
        return &input[0..0];
    }
    let start = node_word(nodes, k, START);
    let end = node_word(nodes, k, END);
    &input[start..end]
}
