// The table of a plain grammar matched against a text: refusals 9 and 10, the cells, then the node list with 11 and 12 (01, Meaning of a match).
#![tactic(auto)]

ghost use Rattle.std.specs.Prelude.{◌≡◌};
ghost use Rattle.match_run.specs.steps.Runs.{Loopless, Ran, listed_match, not_matched};

use grammar_table::Table;
use match_eval::memory::Memory;
use match_nodes::Offence;
use prepare::Verdict;

// Matched to a place, none, or refused with number and place.
#[derive(Clone, Copy)]
pub enum Outcome {
    Matched(usize),
    NoMatch,
    Refused { number: usize, place: usize },
}

#[derive(Clone, Copy)]
pub struct Match {
    pub nodes: usize,
    pub outcome: Outcome,
}

// A refusal, handed on.
pub fn not_matched(v: Verdict) -> Match
    ensures { result ≡ not_matched v }
{
    let outcome = match v {
        Verdict::Accepted => Outcome::NoMatch,
        Verdict::Refused { number, place } => Outcome::Refused { number, place },
    };
    Match { nodes: 0, outcome }
}

// A list's answer for a match of so many bytes.
fn listed_match(taken: usize, l: Result<usize, Offence>) -> Match
    ensures { result ≡ listed_match taken l }
{
    match l {
        Ok(nodes) => Match {
            nodes,
            outcome: Outcome::Matched(taken),
        },
        Err(Offence::Deep(place)) => not_matched(Verdict::Refused { number: 11, place }),
        Err(Offence::Full(place)) => not_matched(Verdict::Refused { number: 12, place }),
    }
}

// 9 and 10 are told here and in `match_ask::ask` alike: what follows reads off both tests that the cells are enough, and each answer is of its own type.
// The table of a plain grammar matched: 9, 10, then the cells, then 11 and 12. What filling remembers serves the list too.
pub fn run(t: &Table, input: &[u8], cells: &mut [u32], nodes: &mut [u32]) -> Match
    requires { Loopless t.now }
    ensures { Ran t.now input.now cells.old nodes.old cells.new nodes.new result }
{
    if input.len() > 65535 {
        return not_matched(Verdict::Refused {
            number: 9,
            place: 65535,
        });
    }
    let n = prepare::symbols(t);
    let need = n * (input.len() + 1);
    if cells.len() < need {
        return not_matched(Verdict::Refused {
            number: 10,
            place: need,
        });
    }
    let mut mem: Memory = [0; match_eval::memory::WORDS];
    match_cells::filling::fill(t, input, cells, &mut mem);
    let c = base_words::word(cells, 0);
    if c == 0 {
        return not_matched(Verdict::Accepted);
    }
    listed_match(c - 1, match_nodes::list(t, input, cells, &mem, n, nodes))
}
