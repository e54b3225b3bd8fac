// The public calls (01). Every one checks for itself: none has a `requires`. An answer is a value beside a verdict, and where it is refused the value is
// nothing: no sets, no lakes, `Not`, 0 bytes. A match has 01's own form: a count beside an enum of matched, none, refused.
// What each case says in document 01's numbers is in specs/Answers.antt, what each call answers in specs/Calls.antt.
// Tables and runs lie in the frame of each call, side by side, since there is no heap: a function that lent them to a closure would be no plainer.
// A caller names this crate alone: every type that the calls take or give is handed on here.
#![tactic(auto)]

ghost use Rattle.std.specs.Prelude.{◌≡◌};
ghost use Rattle.gurkenmond.specs.Calls.{SaysRead, no_sets, SaysSets, SaysLakes, match_of, SaysMatch, lake_of, SaysWay, write_own_of, write_plain_of};
ghost use Rattle.gurkenmond.specs.Calls.{symbol_name_of, SaysText, write_json_of, read_json_of, SaysParsed, summarise_of, SaysSummed, spot_of, SaysSpot};
ghost use Rattle.gurkenmond.specs.steps.Plans.{plan_of};
ghost use Rattle.prepare.specs.declared.Verdict.TheVariants.{Refused};
ghost use Rattle.tree_list.specs.Handing.{node_step_at};
ghost use Rattle.match_list.specs.Nodes.{sound_at, Handed};

use grammar_table::Table;
use lake_analysis::Analysis;
pub use lake_sets::Sets;
pub use match_ask::{LakeWay, Way};
pub use match_run::{Match, Outcome};
pub use prepare::{Counted, Verdict};
pub use read_tokens::Mode;
use tree_list::INPUT_MOST;
pub use tree_list::{Node, NodeReader, NodeStep, behind_node, next_node, node_reader, node_step};
pub use tree_read::Parsed;
use tree_summary::Plan;
pub use tree_summary::{Summary, Summed};
pub use write_put::Written;

#[derive(Clone, Copy)]
pub struct SetsOf {
    pub sets: Sets,
    pub rounds: usize,
    pub verdict: Verdict,
}

// Bit = symbol number.
#[derive(Clone, Copy)]
pub struct Lakes {
    pub word: u64,
    pub verdict: Verdict,
}

// Line and column, both from 1.
#[derive(Clone, Copy)]
pub struct Spot {
    pub line: usize,
    pub column: usize,
    pub verdict: Verdict,
}

// A grammar text is accepted with its counts, or refused (01, Refusal numbers, 1 to 8).
pub fn read(mode: Mode, text: &[u8]) -> Counted
    ensures { SaysRead result mode text.now }
{
    let mut plain: Table = [0; grammar_table::WORDS];
    prepare::plain_only(mode, text, &mut plain)
}

// A refusal, handed on.
fn no_sets(v: Verdict) -> SetsOf
    ensures { result ≡ record { sets = no_sets; rounds = 0; verdict = v } }
{
    SetsOf {
        sets: Sets {
            begin: [0, 0],
            succeed: [0, 0],
            alt: [0, 0],
            eps: false,
        },
        rounds: 0,
        verdict: v,
    }
}

// BEGINNING, SUCCEED and ALT of expression e of the intermediate grammar, numbered from 1, its ε mark and the round count of ALT (01, Lakes made plain).
pub fn sets(mode: Mode, text: &[u8], e: usize) -> SetsOf
    ensures { SaysSets result mode text.now e }
{
    let mut t: Table = [0; grammar_table::WORDS];
    let mut mid: Table = [0; grammar_table::WORDS];
    let mut a = Analysis::new();
    let mut alts: [[u64; 2]; 1024] = [[0, 0]; 1024];
    let r = prepare::load(mode, text, &mut t);
    let made = prepare::analyse(&t, &mut mid, &mut a, &mut alts);
    let p = prepare::finish(r, made, &mid, &alts, &mut t);
    let v = p.counted.verdict;
    if v.is_refused() {
        return no_sets(v);
    }
    let n = prepare::expressions(&mid);
    if e == 0 || n < e {
        return no_sets(Verdict::Refused {
            number: 14,
            place: 0,
        });
    }
    SetsOf {
        sets: a.sets_at(&alts, e),
        rounds: p.rounds,
        verdict: Verdict::Accepted,
    }
}

// The lakes with a nonterminal in ALT whose body has ε (01, "Other calls").
pub fn cannot_skip(mode: Mode, text: &[u8]) -> Lakes
    ensures { SaysLakes result mode text.now }
{
    let mut t: Table = [0; grammar_table::WORDS];
    let mut mid: Table = [0; grammar_table::WORDS];
    let mut a = Analysis::new();
    let mut alts: [[u64; 2]; 1024] = [[0, 0]; 1024];
    let r = prepare::load(mode, text, &mut t);
    let made = prepare::analyse(&t, &mut mid, &mut a, &mut alts);
    let p = prepare::finish(r, made, &mid, &alts, &mut t);
    let v = p.counted.verdict;
    if v.is_refused() {
        return Lakes {
            word: 0,
            verdict: v,
        };
    }
    Lakes {
        word: a.cannot_skip(&mid, &alts),
        verdict: Verdict::Accepted,
    }
}

// A grammar's own text: "Rules that the grammar has" (01, Writing).
pub fn write_own(mode: Mode, text: &[u8], out: &mut [u8]) -> Written
    ensures { SaysText result out.new (write_own_of mode text.now out.old) }
{
    let mut t: Table = [0; grammar_table::WORDS];
    let mut plain: Table = [0; grammar_table::WORDS];
    let c = prepare::plainly(mode, text, &mut t, &mut plain);
    if c.verdict.is_refused() {
        return write_put::not_written(c.verdict);
    }
    write_put::put_text(&t, out, false)
}

// The plain text of a grammar: "in plain, every symbol's"; of a plain grammar it is its own.
pub fn write_plain(mode: Mode, text: &[u8], out: &mut [u8]) -> Written
    ensures { SaysText result out.new (write_plain_of mode text.now out.old) }
{
    let mut plain: Table = [0; grammar_table::WORDS];
    let c = prepare::plain_only(mode, text, &mut plain);
    if c.verdict.is_refused() {
        return write_put::not_written(c.verdict);
    }
    write_put::put_text(&plain, out, true)
}

// The name of a symbol as it stands in the grammar, a lake's with its brackets.
pub fn symbol_name(mode: Mode, text: &[u8], symbol: usize, out: &mut [u8]) -> Written
    ensures { SaysText result out.new (symbol_name_of mode text.now symbol out.old) }
{
    let mut t: Table = [0; grammar_table::WORDS];
    let mut plain: Table = [0; grammar_table::WORDS];
    let c = prepare::plainly(mode, text, &mut t, &mut plain);
    if c.verdict.is_refused() {
        return write_put::not_written(c.verdict);
    }
    let n = prepare::symbols(&t);
    if n <= symbol {
        return write_put::not_written(Verdict::Refused {
            number: 14,
            place: 0,
        });
    }
    write_put::put_name(&t, out, symbol)
}

// A text matched from its begin: the work cells are filled and the nodes listed in the lent words (01, Meaning of a match).
pub fn match_input(
    mode: Mode,
    text: &[u8],
    input: &[u8],
    cells: &mut [u32],
    nodes: &mut [u32],
) -> Match
    ensures { SaysMatch result cells.new nodes.new
        (match_of mode text.now input.now cells.old nodes.old) }
{
    let mut plain: Table = [0; grammar_table::WORDS];
    let c = prepare::plain_only(mode, text, &mut plain);
    if c.verdict.is_refused() {
        return match_run::not_matched(c.verdict);
    }
    match_run::run(&plain, input, cells, nodes)
}

// Whether node k lies whole in the words, with start ≤ end ≤ n (01, "Other calls").
pub fn node_sound(nodes: &[u32], k: usize, n: usize) -> bool
    ensures { result ≡ sound_at nodes.now k n }
{
    match_list::sound(nodes, k, n)
}

// The text of a node, as that part of the lent input; for an unsound node the empty part at 0.
pub fn node_text<'a>(input: &'a [u8], nodes: &[u32], k: usize) -> &'a [u8]
    ensures { Handed result.now result.ref_ptr input.now input.entry.ref_ptr nodes.now k }
{
    match_list::text(input, nodes, k)
}

// How a lake, by its symbol number, matches at a position of the input (01, "Other calls"); the cells are those of the match.
pub fn lake_at(
    mode: Mode,
    text: &[u8],
    input: &[u8],
    cells: &mut [u32],
    lake: usize,
    place: usize,
) -> LakeWay
    ensures { SaysWay result cells.new (lake_of mode text.now input.now cells.old lake place) }
{
    let mut table: Table = [0; grammar_table::WORDS];
    let l = match_ask::look(mode, text, lake, &mut table);
    if l.verdict.is_refused() {
        return match_ask::not_asked(l.verdict);
    }
    match_ask::ask(mode, text, &mut table, l, input, cells, place)
}

// A node list as JSON text (02, par. 1); the list is all words handed over.
pub fn write_json(mode: Mode, text: &[u8], input: &[u8], nodes: &[u32], out: &mut [u8]) -> Written
    ensures { SaysText result out.new
        (write_json_of mode text.now input.now nodes.now out.old) }
{
    let mut t: Table = [0; grammar_table::WORDS];
    let mut plain: Table = [0; grammar_table::WORDS];
    let c = prepare::plainly(mode, text, &mut t, &mut plain);
    if c.verdict.is_refused() {
        return write_put::not_written(c.verdict);
    }
    tree_write::write_list(&t, input, nodes, out)
}

// The node list that a JSON text says, into lent words: all of it, or nothing (02, par. 1).
pub fn read_json(mode: Mode, text: &[u8], input: &[u8], json: &[u8], nodes: &mut [u32]) -> Parsed
    ensures { SaysParsed result nodes.new
        (read_json_of mode text.now input.now json.now nodes.old) }
{
    let mut t: Table = [0; grammar_table::WORDS];
    let mut plain: Table = [0; grammar_table::WORDS];
    let c = prepare::plainly(mode, text, &mut t, &mut plain);
    if c.verdict.is_refused() {
        return tree_read::not_read(c.verdict);
    }
    tree_read::read_list(&t, input, json, nodes)
}

// All checks of a summary for so many records, and what is left to do.
fn planned(mode: Mode, text: &[u8], input: &[u8], nodes: &[u32], room: usize) -> Plan
    ensures { result ≡ plan_of mode text.now input.now nodes.now room }
{
    let mut t: Table = [0; grammar_table::WORDS];
    let mut plain: Table = [0; grammar_table::WORDS];
    let c = prepare::plainly(mode, text, &mut t, &mut plain);
    if c.verdict.is_refused() {
        return tree_summary::no_plan(c.verdict);
    }
    tree_summary::judge(&t, input, nodes, room)
}

// One record for each symbol of a node list, at the front of the lent ones (02, par. 2); the list is all words handed over.
pub fn summarise(
    mode: Mode,
    text: &[u8],
    input: &[u8],
    nodes: &[u32],
    records: &mut [Summary],
) -> Summed
    ensures { SaysSummed result records.new
        (summarise_of mode text.now input.now nodes.now records.old) }
{
    let p = planned(mode, text, input, nodes, records.len());
    tree_summary::update_all(records, nodes, p.symbols, p.steps);
    p.answer
}

// A refusal.
fn no_spot(number: usize, place: usize) -> Spot
    ensures { result ≡ record { line = 0; column = 0; verdict = Refused number place } }
{
    Spot {
        line: 0,
        column: 0,
        verdict: Verdict::Refused { number, place },
    }
}

// The line and the column of a position of a text (02, par. 2); its end is one too.
pub fn line_and_column(input: &[u8], position: usize) -> Spot
    ensures { SaysSpot result (spot_of input.now position) }
{
    if INPUT_MOST < input.len() {
        return no_spot(9, INPUT_MOST);
    }
    if input.len() < position {
        return no_spot(14, 0);
    }
    let p = base_lines::place_of(input, position);
    Spot {
        line: p.line,
        column: p.column,
        verdict: Verdict::Accepted,
    }
}
