// The lake question on the tables of a grammar: refusals 9, 10 and 14, the cells, then how the lake matches (01, "Other calls").
#![tactic(auto)]

ghost use Rattle.std.specs.Prelude.{◌≡◌, ◌≤◌};
ghost use Rattle.prepare.specs.Prepare.{prepared};
ghost use Rattle.match_ask.specs.steps.Asks.{not_asked, LakeIn, Stood, Looked, lent, asked_of};

use grammar_table::Table;
use match_eval::memory::Memory;
pub use match_lake::ways::Way;
use prepare::Verdict;
use read_tokens::Mode;

#[derive(Clone, Copy)]
pub struct LakeWay {
    pub way: Way,
    pub verdict: Verdict,
}

// A refusal, handed on.
pub fn not_asked(verdict: Verdict) -> LakeWay
    ensures { result ≡ not_asked verdict }
{
    LakeWay {
        way: Way::Not,
        verdict,
    }
}

// What is asked of a grammar's symbol beside the tables: its ALT, if it is a lake; or the grammar's refusal.
#[derive(Clone, Copy)]
pub struct LakeAlt {
    pub symbol: usize,
    pub alt: Option<[u64; 2]>,
    pub verdict: Verdict,
}

// The ALT of a symbol of an intermediate grammar of n symbols, if it is a lake.
fn lake_in(mid: &Table, alts: &[[u64; 2]; 1024], n: usize, symbol: usize) -> Option<[u64; 2]>
    requires { n ≤ 64 }
    ensures { LakeIn mid.now alts.now n symbol result }
{
    if n <= symbol || !lake_analysis::is_lake(mid, symbol) {
        return None;
    }
    Some(lake_sets::alt_of(mid, alts, symbol))
}

// The plain form of a text's grammar, and what is asked of a symbol. The intermediate table and all ALT are needed no longer: their room is free for the
// match's memory.
pub fn look(mode: Mode, text: &[u8], symbol: usize, plain: &mut Table) -> LakeAlt
    ensures { Looked mode text.now plain.new symbol result }
{
    let mut mid: Table = [0; grammar_table::WORDS];
    let mut alts: [[u64; 2]; 1024] = [[0, 0]; 1024];
    let r = prepare::load(mode, text, plain);
    let made = prepare::alternatives(plain, &mut mid, &mut alts);
    let p = prepare::finish(r, made, &mid, &alts, plain);
    let verdict = p.counted.verdict;
    if verdict.is_refused() {
        return LakeAlt {
            symbol,
            alt: None,
            verdict,
        };
    }
    let n = prepare::symbols(plain);
    let alt = lake_in(&mid, &alts, n, symbol);
    LakeAlt {
        symbol,
        alt,
        verdict,
    }
}

// 9 and 10 as in `match_run::run`, whose line says why they are told twice.
// The lake question on the plain form of an accepted text's grammar: 9, 10, then 14; then the cells are filled. How the lake matches is asked of the grammar
// itself, for which the table is free then.
pub fn ask(
    mode: Mode,
    text: &[u8],
    table: &mut Table,
    l: LakeAlt,
    input: &[u8],
    cells: &mut [u32],
    place: usize,
) -> LakeWay
    requires { Stood mode text.now table.old l }
    ensures { lent result cells.new ≡ asked_of (prepared mode text.now) input.now cells.old l.symbol place }
{
    if input.len() > 65535 {
        return not_asked(Verdict::Refused {
            number: 9,
            place: 65535,
        });
    }
    let n = prepare::symbols(table);
    let need = n * (input.len() + 1);
    if cells.len() < need {
        return not_asked(Verdict::Refused {
            number: 10,
            place: need,
        });
    }
    let no_such = Verdict::Refused {
        number: 14,
        place: 0,
    };
    let Some(alt) = l.alt else {
        return not_asked(no_such);
    };
    if input.len() < place {
        return not_asked(no_such);
    }
    let mut mem: Memory = [0; match_eval::memory::WORDS];
    match_cells::filling::fill(table, input, cells, &mut mem);
    // what filling remembered is about the plain table
    mem = [0; match_eval::memory::WORDS];
    prepare::own_again(mode, text, table);
    LakeWay {
        way: match_lake::way(table, input, cells, &mem, alt, l.symbol, place),
        verdict: Verdict::Accepted,
    }
}
