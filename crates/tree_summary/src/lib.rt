// One record for each symbol of a node list: how many nodes, how many bytes, the first and the last (02, par. 2). The list is passed once, whatever its
// depth: beside the records stands the farthest end of each symbol's nodes so far.
#![tactic(auto)]

ghost use Rattle.std.specs.Prelude.{suc, ◌-◌, ◌<◌, ◌≤◌, max, ◌≡◌, cond, leb, length, get_or, set};
ghost use Rattle.grammar_table.specs.Table.{symbol_count};
ghost use Rattle.tree_summary.specs.Summary.{absent};
ghost use Rattle.tree_summary.specs.Adding.{changed_by};
ghost use Rattle.tree_summary.specs.steps.Sweeping.{at_first, sweep_at, stepped, Sweepable, Fits};
ghost use Rattle.tree_summary.specs.steps.Judging.{summary_checks, no_plan, plan_by};

use grammar_table::Table;
use prepare::Verdict;
use tree_list::{INPUT_MOST, Node};

// The record of a symbol; without a node it is all zeros and not present. Laid out as C does: other languages lend such records too, so `present` beside the
// numbers and no Option.
#[repr(C)]
#[derive(Clone, Copy)]
pub struct Summary {
    pub nodes: usize,
    pub bytes: usize,
    pub first: usize,
    pub last: usize,
    pub present: bool,
}

// What happens to a record: it is made absent, or node `number` is added with so many bytes.
#[derive(Clone, Copy)]
pub enum Change {
    Clear,
    Add { number: usize, bytes: usize },
}

// A step of a pass: the record that it changes, the change, and the farthest end of each symbol's nodes behind it.
#[derive(Clone, Copy)]
pub struct Sweep {
    pub place: usize,
    pub change: Change,
    pub reach: [u16; 64],
}

// For how many symbols a record was written. As every answer of a call: a number beside a verdict (01).
#[derive(Clone, Copy)]
pub struct Summed {
    pub symbols: usize,
    pub verdict: Verdict,
}

// What is left to do once all is checked; nothing after a refusal.
#[derive(Clone, Copy)]
pub struct Plan {
    pub symbols: usize,
    pub steps: usize,
    pub answer: Summed,
}

// A record after a change.
fn changed(old: Summary, u: Change) -> Summary
    requires { Fits old u }
    ensures { result ≡ changed_by old u }
{
    match u {
        Change::Clear => Summary {
            nodes: 0,
            bytes: 0,
            first: 0,
            last: 0,
            present: false,
        },
        Change::Add { number, bytes } => Summary {
            nodes: old.nodes + 1,
            bytes: old.bytes + bytes,
            first: if old.present { old.first } else { number },
            last: number,
            present: true,
        },
    }
}

// The record of an added node's symbol, and no other (01, Required forms by place).
fn update(records: &mut [Summary], r: usize, u: Change)
    requires { (r < length records.old) × Fits (get_or records.old r absent) u }
    ensures { records.new ≡ set records.old r (changed_by (get_or records.old r absent) u) }
{
    records[r] = changed(records[r], u);
}

// Before the first step.
fn begun() -> Sweep
    ensures { result ≡ at_first }
{
    Sweep {
        place: 0,
        change: Change::Clear,
        reach: [0; 64],
    }
}

// The bytes from p to q, if no node of the symbol reaches behind p.
fn bytes_added(far: usize, p: usize, q: usize) -> usize
    requires { p ≤ q }
    ensures { result ≡ cond (leb far p) (q - p) 0 }
{
    if far <= p { q - p } else { 0 }
}

// The farthest ends once a node of symbol r ends at q.
fn reach_to(reach: &mut [u16; 64], r: usize, q: usize)
    requires { (r < 64) × (q < 65536) }
    ensures { reach.new ≡ set reach.old r (max q (get_or reach.old r 0)) }
{
    reach[r] = reach[r].max(q as u16);
}

// Step i: the first steps make the records absent, one each, then one adds each node.
fn step(nodes: &[u32], symbols: usize, s: Sweep, i: usize) -> Sweep
    requires { (s ≡ sweep_at nodes.now symbols i) × Sweepable nodes.now symbols (suc i) }
    ensures { result ≡ sweep_at nodes.now symbols (suc i) }
{
    let mut reach = s.reach;
    if i < symbols {
        return Sweep {
            place: i,
            change: Change::Clear,
            reach,
        };
    }
    let number = i - symbols;
    let Node {
        symbol,
        start,
        end,
        ..
    } = tree_list::node_step(nodes, number).node;
    let bytes = bytes_added(usize::from(reach[symbol]), start, end);
    reach_to(&mut reach, symbol, end);
    Sweep {
        place: symbol,
        change: Change::Add { number, bytes },
        reach,
    }
}

// So many steps, one after the other.
pub fn update_all(records: &mut [Summary], nodes: &[u32], symbols: usize, steps: usize)
    requires { 0 < steps → Sweepable nodes.now symbols steps × (symbols ≤ length records.old) }
    ensures { records.new ≡ stepped nodes.now symbols steps records.old }
{
    let mut s = begun();
    for i in 0..steps {
        s = step(nodes, symbols, s, i);
        update(records, s.place, s.change);
    }
}

// A refusal, handed on.
pub fn no_plan(v: Verdict) -> Plan
    ensures { result ≡ no_plan v }
{
    Plan {
        symbols: 0,
        steps: 0,
        answer: Summed {
            symbols: 0,
            verdict: v,
        },
    }
}

// All checks once a grammar is prepared in t, and what is left to do: 9, 15, then 17.
pub fn judge(t: &Table, input: &[u8], nodes: &[u32], room: usize) -> Plan
    ensures { result ≡ plan_by (summary_checks (symbol_count t.now) input.now nodes.now room) (symbol_count t.now)
        nodes.now }
{
    if INPUT_MOST < input.len() {
        return no_plan(Verdict::Refused {
            number: 9,
            place: INPUT_MOST,
        });
    }
    let symbols = grammar_table::records::symbols(t);
    if let Some(place) = tree_list::bad_node(nodes, symbols, input.len()) {
        return no_plan(Verdict::Refused { number: 15, place });
    }
    if room < symbols {
        return no_plan(Verdict::Refused {
            number: 17,
            place: symbols,
        });
    }
    Plan {
        symbols,
        steps: symbols + nodes.len() / match_list::NODE_WORDS,
        answer: Summed {
            symbols,
            verdict: Verdict::Accepted,
        },
    }
}
