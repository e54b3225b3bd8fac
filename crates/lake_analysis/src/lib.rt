#![tactic(auto)]

ghost use Rattle.std.specs.Prelude.{◌≡◌, Bool, true, false, List, [], ◌∷◌, ℕ, ◌+◌, ◌-◌, ◌*◌, ◌^◌, ◌<◌, ◌≤◌, length, get_or, set, take, cond, ◌||◌, replicate};
ghost use Rattle.base_words.specs.Set.{empty};
ghost use Rattle.lake_analysis.specs.steps.Lent.{Begins, Parted, Fronted, SetsOf, lake_in, hit_in, blocked_in, skip_in, skips_in, CannotSkip};

use grammar_table::records;

// ε marks by symbol, then BEGINNING of every expression (01, Lakes made plain).
fn begins(t: &grammar_table::Table, marks: &mut [bool], sets: &mut [[u64; 2]], eps: &mut [bool])
    requires { (length marks.old ≤ 64) × (length sets.old ≤ 1024) × (length eps.old ≡ length sets.old) }
    ensures { Begins t.now (length sets.old) (length marks.old) marks.new sets.new eps.new }
{
    lake_sets::mark_all(t, marks, sets, eps);
    lake_sets::begin_all(t, marks, sets, eps);
}

// All sets of an intermediate grammar, in runs of exactly its length, and the round count of ALT; `base` is room for what each expression has at once.
pub fn analyse(
    t: &grammar_table::Table,
    marks: &mut [bool],
    sets: &mut [[u64; 2]],
    eps: &mut [bool],
    succ: &mut [[u64; 2]],
    alts: &mut [[u64; 2]],
    base: &mut [[u64; 2]],
) -> usize
    requires { (length marks.old ≤ 64) × (length sets.old ≤ 1024) × (length eps.old ≡ length sets.old)
        × (length succ.old ≡ length sets.old) × (length alts.old ≡ length sets.old) × (length base.old ≡ length sets.old) }
    ensures { Parted t.now (length sets.old) (length marks.old) marks.new sets.new eps.new
        succ.new alts.new result }
{
    begins(t, marks, sets, eps);
    lake_sets::succeed_all(t, sets, eps, base, succ);
    lake_sets::alt_all(t, sets, eps, succ, base, alts)
}

// How many symbols and expressions there are.
#[derive(Clone, Copy)]
struct Sizes {
    symbols: usize,
    expressions: usize,
}

// The same at the front of longer runs.
fn analyse_front(
    t: &grammar_table::Table,
    all: Sizes,
    marks: &mut [bool],
    sets: &mut [[u64; 2]],
    eps: &mut [bool],
    succ: &mut [[u64; 2]],
    alts: &mut [[u64; 2]],
) -> usize
    requires { (all.symbols ≤ 64) × (all.expressions ≤ 1024) × (all.symbols ≤ length marks.old) × (all.expressions ≤ length sets.old)
        × (all.expressions ≤ length eps.old) × (all.expressions ≤ length succ.old) × (all.expressions ≤ length alts.old) }
    ensures { Parted t.now all.expressions all.symbols (take all.symbols marks.new) (take all.expressions sets.new)
        (take all.expressions eps.new) (take all.expressions succ.new) (take all.expressions alts.new) result }
{
    let r = all.symbols;
    let n = all.expressions;
    let mut base: [[u64; 2]; 1024] = [[0, 0]; 1024];
    analyse(
        t,
        &mut marks[..r],
        &mut sets[..n],
        &mut eps[..n],
        &mut succ[..n],
        &mut alts[..n],
        &mut base[0..n],
    )
}

// What is worked out of an intermediate grammar beside ALT: the ε marks of its symbols; of its expressions BEGINNING, the ε mark and SUCCEED. Each run is as
// long as a grammar can have symbols or expressions, and has them at its front: there is no heap. ALT is lent beside: it outlasts the others, whose room is
// free then.
#[derive(Drop)]
pub struct Analysis {
    pub marks: [bool; 64],
    pub sets: [[u64; 2]; 1024],
    pub eps: [bool; 1024],
    pub succ: [[u64; 2]; 1024],
}

impl Analysis {
    // Of no grammar: no mark, and empty sets.
    pub fn new() -> Analysis
        ensures { result ≡ record {
          marks = replicate 64 false;
          sets = replicate 1024 empty;
          eps = replicate 1024 false;
          succ = replicate 1024 empty;
        } }
    {
        Analysis {
            marks: [false; 64],
            sets: [[0, 0]; 1024],
            eps: [false; 1024],
            succ: [[0, 0]; 1024],
        }
    }

    // All sets of the intermediate grammar that a table holds, and the round count of ALT (01: "The reported count is the first k whose next round is equal").
    pub fn analyse_table(&mut self, t: &grammar_table::Table, alts: &mut [[u64; 2]; 1024]) -> usize
        ensures { let a = self.new in Fronted t.now a.marks a.sets a.eps a.succ alts.new result }
    {
        let symbols = records::symbols(t);
        let expressions = records::expressions(t);
        if symbols > 64 || expressions > 1024 {
            return 0;
        }
        let all = Sizes {
            symbols,
            expressions,
        };
        let Analysis {
            marks,
            sets,
            eps,
            succ,
        } = self;
        analyse_front(t, all, marks, sets, eps, succ, alts)
    }

    // The sets of expression e, numbered from 1, with its ε mark (01: "the three sets of an expression travel together with the ε mark").
    pub fn sets_at(&self, alts: &[[u64; 2]; 1024], e: usize) -> lake_sets::Sets
        requires { 1 ≤ e }
        ensures { let a = self.now in SetsOf a.sets a.eps a.succ alts.now e result }
    {
        let i = e - 1;
        lake_sets::Sets {
            begin: lake_sets::set_at(&self.sets, i),
            succeed: lake_sets::set_at(&self.succ, i),
            alt: lake_sets::set_at(alts, i),
            eps: lake_sets::flag_at(&self.eps, i),
        }
    }

    // Whether n is a nonterminal of the set whose body has ε.
    fn hit(&self, t: &grammar_table::Table, s: [u64; 2], n: usize) -> bool
        requires { n < 64 }
        ensures { result ≡ hit_in t.now self.now.marks s n }
    {
        base_words::member(s, n) && !is_lake(t, n) && lake_sets::flag_at(&self.marks, n)
    }

    fn blocked(&self, t: &grammar_table::Table, s: [u64; 2], r: usize) -> bool
        requires { r ≤ 64 }
        ensures { result ≡ blocked_in t.now self.now.marks s r }
    {
        (0..r).any(|n| self.hit(t, s, n))
    }

    // Whether lake n cannot skip.
    fn stuck(&self, t: &grammar_table::Table, alts: &[[u64; 2]], r: usize, n: usize) -> bool
        requires { (r ≤ 64) × (n < 64) }
        ensures { result ≡ skip_in t.now self.now.marks alts.now r n }
    {
        is_lake(t, n) && self.blocked(t, lake_sets::alt_of(t, alts, n), r)
    }

    // The word w of the lakes below n, and n if it cannot skip.
    fn note(&self, t: &grammar_table::Table, alts: &[[u64; 2]], r: usize, n: usize, w: u64) -> u64
        requires { (r ≤ 64) × (n < 64) × (w < 2 ^ n) }
        ensures { result ≡ w + cond (skip_in t.now self.now.marks alts.now r n) (2 ^ n) 0 }
    {
        if self.stuck(t, alts, r, n) {
            w + lake_sets::bit(n)
        } else {
            w
        }
    }

    // The lakes with a nonterminal in ALT whose body has ε, bit = symbol (01, "Other calls").
    pub fn cannot_skip(&self, t: &grammar_table::Table, alts: &[[u64; 2]; 1024]) -> u64
        ensures { CannotSkip t.now self.now.marks alts.now result }
    {
        let r = records::symbols(t);
        if r > 64 {
            return 0;
        }
        let mut w = 0;
        for n in 0..r {
            w = self.note(t, alts, r, n, w);
        }
        w
    }
}

// Whether symbol n is a lake.
pub fn is_lake(t: &grammar_table::Table, n: usize) -> bool
    requires { n < 64 }
    ensures { result ≡ lake_in t.now n }
{
    lake_step_one::is_lake(t, n)
}
