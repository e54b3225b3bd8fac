// The answers of the public calls as numbers (specs/Words.antt).
#![tactic(auto)]

ghost use Rattle.std.specs.Prelude.{◌≡◌};
ghost use Rattle.gurkenmond.specs.Answers.{verdict_says, outcome_says, way_says};
ghost use Rattle.library_numbers.specs.Words.{mode_of, bit_of, four_words, read_numbers, sets_numbers, lakes_numbers, match_numbers, one_by, spot_by};
ghost use Rattle.library_numbers.specs.Words.{span_words};

use gurkenmond::{Mode, Outcome, Verdict, Way};
use match_list::{END, NODE_WORDS, START};

// 0 is lake, every other byte plain.
pub fn mode_of(m: u8) -> Mode
    ensures { result ≡ mode_of m }
{
    match m {
        0 => Mode::Lake,
        _ => Mode::Plain,
    }
}

pub fn bit(b: bool) -> u64
    ensures { result ≡ bit_of b }
{
    u64::from(b)
}

fn refusal(number: usize, place: usize) -> [u64; 4]
    ensures { result ≡ four_words number place 0 0 }
{
    [number as u64, place as u64, 0, 0]
}

pub fn of_read(v: Verdict, s: usize, t: usize, e: usize) -> [u64; 4]
    ensures { result ≡ read_numbers v s t e }
{
    match v {
        Verdict::Accepted => [0, s as u64, t as u64, e as u64],
        Verdict::Refused { number, place } => refusal(number, place),
    }
}

pub fn of_sets(v: Verdict, rounds: usize, s: gurkenmond::Sets) -> [u64; 9]
    ensures { result ≡ sets_numbers v rounds s }
{
    let (b, c, a, e) = (s.begin, s.succeed, s.alt, bit(s.eps));
    match v {
        Verdict::Accepted => [0, rounds as u64, b[0], b[1], c[0], c[1], a[0], a[1], e],
        Verdict::Refused { number, place } => [number as u64, place as u64, 0, 0, 0, 0, 0, 0, 0],
    }
}

pub fn of_lakes(v: Verdict, w: u64) -> [u64; 4]
    ensures { result ≡ lakes_numbers v w }
{
    match v {
        Verdict::Accepted => [0, w, 0, 0],
        Verdict::Refused { number, place } => refusal(number, place),
    }
}

pub fn of_match(o: Outcome, k: usize) -> [u64; 4]
    ensures { result ≡ match_numbers (outcome_says o) k }
{
    match o {
        Outcome::Matched(taken) => [0, taken as u64, k as u64, 0],
        Outcome::NoMatch => [100, 0, 0, 0],
        Outcome::Refused { number, place } => refusal(number, place),
    }
}

// What a case of the lake question says: the C interface's numbers, which `way_says` gives.
pub fn of_way(w: Way) -> usize
    ensures { result ≡ way_says w }
{
    match w {
        Way::Not => 0,
        Way::ByRule => 1,
        Way::ByWater => 2,
        Way::BySkip => 3,
    }
}

// One value, or a refusal.
pub fn of_one(v: Verdict, x: usize) -> [u64; 4]
    ensures { result ≡ one_by (verdict_says v) x }
{
    match v {
        Verdict::Accepted => [0, x as u64, 0, 0],
        Verdict::Refused { number, place } => refusal(number, place),
    }
}

pub fn of_summed(a: gurkenmond::Summed) -> [u64; 4]
    ensures { result ≡ one_by (verdict_says a.verdict) a.symbols }
{
    of_one(a.verdict, a.symbols)
}

pub fn of_spot(s: gurkenmond::Spot) -> [u64; 4]
    ensures { result ≡ spot_by (verdict_says s.verdict) s.line s.column }
{
    match s.verdict {
        Verdict::Accepted => [0, s.line as u64, s.column as u64, 0],
        Verdict::Refused { number, place } => refusal(number, place),
    }
}

// Node words may hold anything: a number of a node that is not there is no place in them.
pub fn of_span(input: &[u8], nodes: &[u32], k: usize) -> [u64; 4]
    ensures { result ≡ span_words input.now nodes.now k }
{
    if k < nodes.len() / NODE_WORDS && gurkenmond::node_sound(nodes, k, input.len()) {
        let start = base_words::word(nodes, NODE_WORDS * k + START);
        let end = base_words::word(nodes, NODE_WORDS * k + END);
        return [0, start as u64, (end - start) as u64, 0];
    }
    [0; 4]
}
