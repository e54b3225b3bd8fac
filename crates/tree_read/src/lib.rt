// A JSON text read as the node list that it is the text of (02, par. 1): judged whole, then written; any other text is refused 16, and a list for which
// there is no room 12, with nothing written.
#![tactic(auto)]

ghost use Rattle.std.specs.Prelude.{◌≤◌, ◌≡◌, false, length};
ghost use Rattle.write_leaves.specs.steps.Printed.{called};
ghost use Rattle.tree_json.specs.Reading.{parsed};
ghost use Rattle.tree_read.specs.steps.Puts.{parsed_by, words_by};
ghost use Rattle.grammar_table.specs.Table.{symbol_count};
ghost use Rattle.tree_read.specs.steps.Lists.{not_read, ReadList};

use grammar_table::Table;
use prepare::Verdict;
use tree_list::INPUT_MOST;

pub mod bytes;
pub mod heads;
pub mod leaves;
pub mod nodes;

// How many nodes were written. As every answer of a call: a number beside a verdict (01).
#[derive(Clone, Copy)]
pub struct Parsed {
    pub nodes: usize,
    pub verdict: Verdict,
}

// The nodes that a text says, at the front of the words; t holds the names of so many symbols.
pub fn put_nodes(t: &Table, symbols: usize, input: &[u8], json: &[u8], nodes: &mut [u32]) -> Parsed
    requires { (symbols ≤ 64) × (length input.now ≤ 65535) }
    ensures { (result ≡ parsed_by (parsed (called false t.now) symbols input.now json.now) nodes.old)
        × (nodes.new ≡ words_by (parsed (called false t.now) symbols input.now json.now) nodes.old) }
{
    let Some(n) = nodes::walk(t, symbols, input, json, &mut []) else {
        return not_read(Verdict::Refused {
            number: 16,
            place: 0,
        });
    };
    let room = nodes.len() / match_list::NODE_WORDS;
    if room < n {
        return not_read(Verdict::Refused {
            number: 12,
            place: room,
        });
    }
    nodes::walk(t, symbols, input, json, nodes);
    Parsed {
        nodes: n,
        verdict: Verdict::Accepted,
    }
}

// A refusal, handed on.
pub fn not_read(v: Verdict) -> Parsed
    ensures { result ≡ not_read v }
{
    Parsed {
        nodes: 0,
        verdict: v,
    }
}

// A text as node list, once its grammar is prepared in t: 9, 16, then 12.
pub fn read_list(t: &Table, input: &[u8], json: &[u8], nodes: &mut [u32]) -> Parsed
    requires { symbol_count t.now ≤ 64 }
    ensures { ReadList input.now (parsed (called false t.now) (symbol_count t.now) input.now json.now)
        nodes.old nodes.new result }
{
    if INPUT_MOST < input.len() {
        return not_read(Verdict::Refused {
            number: 9,
            place: INPUT_MOST,
        });
    }
    put_nodes(t, prepare::symbols(t), input, json, nodes)
}
