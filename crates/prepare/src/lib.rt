// What every call on a grammar does first (01: "Every call on a grammar checks 1 to 8"): the text becomes a table, the table an intermediate grammar with
// its sets, and that a plain grammar; or a refusal with number and place.
#![tactic(auto)]

ghost use Rattle.std.specs.Prelude.{◌≡◌, length, None};
ghost use Rattle.std.proofs.Math.Option.{none};
ghost use Rattle.grammar.specs.Numbers.{numbered};
ghost use Rattle.grammar_table.specs.Holds.{Holds};
ghost use Rattle.grammar_table.specs.Table.{table_words, symbol_count, expression_count};
ghost use Rattle.read_syntax.specs.Reading.{rules_of};
ghost use Rattle.prepare.specs.Prepare.{refuses};
ghost use Rattle.lake_calls.specs.steps.Marks.{LoopedAll};
ghost use Rattle.read_tokens.specs.Bounds.{expression_bound};
ghost use Rattle.prepare.specs.Reads.{is_refused};
ghost use Rattle.read_syntax.specs.steps.Found.{found};
ghost use Rattle.prepare.specs.steps.Scanned.{scanned};
ghost use Rattle.prepare.specs.steps.Loads.{Loads, Between, WithAlts, Follows, Finished, Plainly, PlainOnly};
ghost use Rattle.prepare.specs.declared.Verdict.TheVariants.{Refused as VerdictRefused};

pub mod refusals;

use grammar_table::{Table, records, renew};
use lake_analysis::Analysis;
use read_tokens::Mode;

// A grammar is accepted, or refused with number and place: 01's form of an answer, which stands beside its counts.
#[derive(Clone, Copy, PartialEq, Eq)]
pub enum Verdict {
    Accepted,
    Refused { number: usize, place: usize },
}

impl Verdict {
    pub fn is_refused(self) -> bool
        ensures { result ≡ is_refused self }
    {
        matches!(self, Verdict::Refused { .. })
    }
}

#[derive(Clone, Copy)]
pub struct Counted {
    pub symbols: usize,
    pub terminals: usize,
    pub expressions: usize,
    pub verdict: Verdict,
}

fn refusal(number: usize, place: usize) -> Counted
    ensures { result ≡ record { symbols = 0; terminals = 0; expressions = 0; verdict = VerdictRefused number place } }
{
    Counted {
        symbols: 0,
        terminals: 0,
        expressions: 0,
        verdict: Verdict::Refused { number, place },
    }
}

// Of each bound that 01 gives for both modes there is one function, as there is one definition: one for all would be no plainer.
fn expression_bound(mode: Mode) -> usize
    ensures { result ≡ expression_bound mode }
{
    match mode {
        Mode::Lake => 512,
        Mode::Plain => 1024,
    }
}

// The counts of a grammar that 1 to 5 let through, which the table then holds, or refusal 6.
fn gather(mode: Mode, text: &[u8], t: &mut Table) -> Counted
    requires { (length t.old ≡ table_words) × (found (scanned mode text.now) ≡ None) }
    ensures { Loads mode text.now t.new result }
{
    let c = read_grammar::build(mode, text, t);
    if 64 < c.symbols {
        return refusal(6, 1);
    }
    if 64 < c.terminals {
        return refusal(6, 2);
    }
    if expression_bound(mode) < c.expressions {
        return refusal(6, 3);
    }
    Counted {
        symbols: c.symbols,
        terminals: c.terminals,
        expressions: c.expressions,
        verdict: Verdict::Accepted,
    }
}

// Refusals 1 to 6, or the counts of a grammar, which the table then holds.
pub fn load(mode: Mode, text: &[u8], t: &mut Table) -> Counted
    ensures { Loads mode text.now t.new result }
{
    if let Some(f) = refusals::refused(mode, text, t) {
        return refusal(f.number, f.place);
    }
    renew(t);
    gather(mode, text, t)
}

// How many expressions the intermediate grammar has, and how many rounds ALT took.
#[derive(Clone, Copy)]
pub struct Intermediate {
    pub expressions: usize,
    pub rounds: usize,
}

// The intermediate grammar of a table with its sets; no sets where it has too many expressions.
pub fn analyse(
    t: &Table,
    mid: &mut Table,
    a: &mut Analysis,
    alts: &mut [[u64; 2]; 1024],
) -> Intermediate
    ensures { let n = a.new in Between t.now mid.new n.marks n.sets n.eps n.succ alts.new result.expressions result.rounds }
{
    let n = lake_step_one::step_one(t, mid);
    if 1024 < n {
        return Intermediate {
            expressions: n,
            rounds: 0,
        };
    }
    let rounds = a.analyse_table(mid, alts);
    Intermediate {
        expressions: n,
        rounds,
    }
}

// The same for ALT alone: the other sets are needed no longer.
pub fn alternatives(t: &Table, mid: &mut Table, alts: &mut [[u64; 2]; 1024]) -> Intermediate
    ensures { WithAlts t.now mid.new alts.new result.expressions result.rounds }
{
    let mut a = Analysis::new();
    analyse(t, mid, &mut a, alts)
}

// The plain grammar of an intermediate one with n expressions: how many it has, more than 1,024 where it is refused, as `SteppedTwo` promises it.
fn translate(n: usize, mid: &Table, alts: &[[u64; 2]; 1024], out: &mut Table) -> usize
    ensures { Follows n mid.now alts.now out.new result }
{
    if 1024 < n {
        return n;
    }
    lake_step_two::step_two(mid, alts, out)
}

// The smallest symbol on a loop of first calls; the number of symbols where there is none, as `LoopedAll` has it.
fn loop_of(t: &Table) -> usize
    ensures { LoopedAll t.now result }
{
    let n = records::symbols(t);
    if 64 < n {
        return 0;
    }
    lake_calls::loops::table_loop(t)
}

// How many symbols a table holds.
pub fn symbols(t: &Table) -> usize
    ensures { result ≡ symbol_count t.now }
{
    records::symbols(t)
}

// How many expressions a table holds.
pub fn expressions(t: &Table) -> usize
    ensures { result ≡ expression_count t.now }
{
    records::expressions(t)
}

// The answer of `read`, and the round count of ALT.
#[derive(Clone, Copy)]
pub struct Prepared {
    pub counted: Counted,
    pub rounds: usize,
}

fn refused(r: Counted) -> Prepared
    ensures { result ≡ record { counted = r; rounds = 0 } }
{
    Prepared {
        counted: r,
        rounds: 0,
    }
}

// What 1 to 6 said, then refusal 7 and 8 of the plain grammar.
pub fn finish(
    r: Counted,
    made: Intermediate,
    mid: &Table,
    alts: &[[u64; 2]; 1024],
    out: &mut Table,
) -> Prepared
    ensures { Finished r made.expressions made.rounds mid.now alts.now out.new result.counted result.rounds }
{
    if r.verdict.is_refused() {
        return refused(r);
    }
    let e = translate(made.expressions, mid, alts, out);
    if 1024 < e {
        return refused(refusal(7, 1025));
    }
    let l = loop_of(out);
    if l < r.symbols {
        return refused(refusal(8, l));
    }
    Prepared {
        counted: r,
        rounds: made.rounds,
    }
}

// A grammar's plain form, or a refusal 1 to 8. `out` has the grammar until its intermediate form stands in `mid`: two tables are enough. Refusals 1 to 5 are
// asked for here and in `load`: what two places call has a frame of its own, which is gone when the grammar is gathered.
fn translated(mode: Mode, text: &[u8], mid: &mut Table, out: &mut Table) -> Counted
    ensures { PlainOnly mode text.now out.new result }
{
    if let Some(f) = refusals::refused(mode, text, out) {
        return refusal(f.number, f.place);
    }
    renew(out);
    let r = gather(mode, text, out);
    if r.verdict.is_refused() {
        return r;
    }
    let mut alts: [[u64; 2]; 1024] = [[0, 0]; 1024];
    let made = alternatives(out, mid, &mut alts);
    finish(r, made, mid, &alts, out).counted
}

// The plain form alone.
pub fn plain_only(mode: Mode, text: &[u8], out: &mut Table) -> Counted
    ensures { PlainOnly mode text.now out.new result }
{
    let mut mid: Table = [0; grammar_table::WORDS];
    translated(mode, text, &mut mid, out)
}

// The grammar of a text that is accepted, in a table that has served otherwise.
pub fn own_again(mode: Mode, text: &[u8], t: &mut Table)
    requires { refuses mode text.now ≡ none }
    ensures { Holds t.new (numbered (rules_of mode text.now)) }
{
    renew(t);
    let counts = gather(mode, text, t);
}

// The grammar and its plain form, or a refusal 1 to 8: the grammar is gathered again when its table has served as the intermediate one.
pub fn plainly(mode: Mode, text: &[u8], t: &mut Table, out: &mut Table) -> Counted
    ensures { Plainly mode text.now t.new out.new result }
{
    let c = translated(mode, text, t, out);
    if c.verdict.is_refused() {
        return c;
    }
    own_again(mode, text, t);
    c
}
