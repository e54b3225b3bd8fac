#![tactic(auto)]

ghost use Rattle.std.specs.Prelude.{◌≡◌, Bool, true, false, List, [], ◌∷◌, ℕ, ◌+◌, ◌-◌, ◌*◌, ◌^◌, ◌<◌, ◌≤◌, length, get_or, set, eqb};
ghost use Rattle.lake_step_one.specs.steps.Runs.{Near, CopiedOne, CopiedRun, CopiedBody, BodyTo, EndWord};
ghost use Rattle.lake_step_one.specs.steps.Runs.{moved as moved_to};
ghost use Rattle.lake_step_one.specs.steps.Extents.{from_of, end_of};
ghost use Rattle.lake_step_one.specs.steps.Made.{next_by, lake_at, MadeNext, WaterAt, SteppedOne, BuiltAll};
ghost use Rattle.grammar_table.specs.Table.{expressions_at, symbol_word, name_at, name_in};
ghost use Rattle.grammar.specs.Same.{same_symbol};
ghost use Rattle.lake_step_one.specs.Intermediate.{water_name};

pub mod extent;

pub use extent::Extent;
use grammar_table::records;

// A part's number moved with its run from o to m.
fn moved(o: usize, m: usize, i: usize) -> usize
    requires { (m < 1125899906842624) × (i < 4294967296) }
    ensures { (result < 4294967296) × (m < 1024 → Near o i → result ≡ moved_to o m i) }
{
    cap((i + m).saturating_sub(o))
}

// Here and below the two tables and the count so far are handed on one by one: so `CopiedOne`, `BodyTo` and `MadeNext` name them.
// Expression e of t, of a run that begins at o, stored at `at` of a run that begins at m.
fn copy_one(t: &[u32], mid: &mut [u32], e: usize, at: usize, o: usize, m: usize)
    requires { (e < 1125899906842624) × (at < 1125899906842624) × (m < 1125899906842624) }
    ensures { CopiedOne t.now e o mid.old at m mid.new }
{
    let op = records::op(t, e);
    let l = records::left(t, e);
    let r = records::right(t, e);
    if op < 2 {
        records::store_expression(mid, at, op, l, r);
        return;
    }
    records::store_expression(mid, at, op, moved(o, m, l), moved(o, m, r));
}

// The k expressions of t from a on, copied to m.
pub fn copy_run(t: &[u32], mid: &mut [u32], a: usize, k: usize, m: usize)
    requires { (a < 4294967296) × (k < 4294967296) × (m < 281474976710656) }
    ensures { CopiedRun t.now a k mid.old m mid.new }
{
    for j in 0..k {
        copy_one(t, mid, a + j, m + j, a, m);
    }
}

// b - a, and 0 where there is nothing between.
pub fn span(a: usize, b: usize) -> usize
    ensures { result ≡ b - a }
{
    b.saturating_sub(a)
}

// A number as a word of a table.
pub fn cap(m: usize) -> usize
    ensures { (result < 4294967296) × (m < 4294967296 → result ≡ m) }
{
    u32::try_from(m).unwrap_or(0) as usize
}

// A body, if there is one, copied behind the first m: "Copies are expressions of their own" (01, step 1).
fn copy_body(t: &[u32], mid: &mut [u32], own: Option<Extent>, m: usize) -> usize
    requires { m < 140737488355328 }
    ensures { (result ≤ m + 4294967296) × CopiedBody t.now (from_of own) (end_of own) mid.old m mid.new result }
{
    let Some(own) = own else {
        return m;
    };
    let k = own.count();
    copy_run(t, mid, own.from, k, m);
    m + k
}

// "each lake body becomes `e / w`"; "a lake without a rule becomes `w`" (01); without a `water` rule it "is its own rule or none" (02, §4).
fn lake_body(
    t: &[u32],
    mid: &mut [u32],
    own: Option<Extent>,
    water: Option<Extent>,
    m: usize,
) -> usize
    requires { m < 70368744177664 }
    ensures { (result ≤ m + 12884901888)
        × BodyTo t.now true (from_of own) (end_of own) (from_of water) (end_of water) mid.old m mid.new result }
{
    let q = copy_body(t, mid, own, m);
    let p = copy_body(t, mid, water, q);
    if own.is_none() || water.is_none() {
        return p;
    }
    let x = cap(q.saturating_sub(1));
    let y = cap(p.saturating_sub(1));
    records::store_expression(mid, p, grammar_table::CHOICE, x, y);
    p + 1
}

// The intermediate body of one symbol, a lake's or another's: `BodyTo` takes the same Bool.
fn body(
    t: &[u32],
    mid: &mut [u32],
    lake: bool,
    own: Option<Extent>,
    water: Option<Extent>,
    m: usize,
) -> usize
    requires { m < 70368744177664 }
    ensures { (result ≤ m + 12884901888)
        × BodyTo t.now lake (from_of own) (end_of own) (from_of water) (end_of water) mid.old m mid.new result }
{
    if lake {
        lake_body(t, mid, own, water, m)
    } else {
        copy_body(t, mid, own, m)
    }
}

// How far step 1 has come in both tables.
#[derive(Clone, Copy)]
pub struct Reached {
    pub from: usize,
    pub count: usize,
}

// Where the run of the next body begins: behind a body that ends at b, and where this one would have begun if there is none.
pub fn next_from(from: usize, b: usize) -> usize
    ensures { result ≡ next_by from b }
{
    if b == 0 { from } else { b }
}

// The word of a body whose expressions, behind the first m, end at p; 0 where there are none.
fn end_word(m: usize, p: usize) -> usize
    ensures { (result < 4294967296) × EndWord m p result }
{
    if p == m { 0 } else { cap(p) }
}

// Whether symbol r is a lake.
pub fn is_lake(t: &[u32], r: usize) -> bool
    requires { r < 64 }
    ensures { result ≡ lake_at t.now r }
{
    records::kind(t, r) != 0
}

// The intermediate body of symbol r, its expressions from `from` on in t, behind the first m.
fn symbol(
    t: &[u32],
    mid: &mut [u32],
    r: usize,
    water: Option<Extent>,
    from: usize,
    m: usize,
) -> Reached
    requires { (r < 64) × (from < 4294967296) × (m < 70368744177664) }
    ensures { (result.from < 4294967296) × (result.count ≤ m + 12884901888)
        × MadeNext t.now r (from_of water) (end_of water) from m mid.old result.from result.count mid.new }
{
    let b = records::body(t, r);
    let own = Extent::of(from, b);
    let count = body(t, mid, is_lake(t, r), own, water, m);
    records::store_body(mid, r, end_word(m, count));
    Reached {
        from: next_from(from, b),
        count,
    }
}

// The name of the rule whose right side joins each lake's body.
const WATER: [u8; 5] = *b"water";

// Whether symbol s is called `water`.
pub fn is_water(t: &[u32], s: usize) -> bool
    requires { s < 64 }
    ensures { result ≡ same_symbol water_name (name_in t.now s) }
{
    records::kind(t, s) == 0
        && records::name_length(t, s) == WATER.len()
        && (0..WATER.len()).all(|j| records::name_word(t, s, j) == usize::from(WATER[j]))
}

// Where the run of symbol s + 1 begins.
fn pass(t: &[u32], s: usize, from: usize) -> usize
    requires { (s < 64) × (from < 4294967296) }
    ensures { (result < 4294967296) × (result ≡ next_by from (symbol_word t.now s 1)) }
{
    next_from(from, records::body(t, s))
}

// The run of water's right side, if it has one.
fn water(t: &[u32], r: usize) -> Option<Extent>
    requires { r ≤ 64 }
    ensures { WaterAt t.now r (from_of result) (end_of result) }
{
    let mut from = 0;
    for s in 0..r {
        if is_water(t, s) {
            return Extent::of(from, records::body(t, s));
        }
        from = pass(t, s, from);
    }
    None
}

// The words below the expressions.
pub fn copy_low(t: &[u32], mid: &mut [u32])
    ensures { (i : ℕ) → i < expressions_at → i < length mid.old → get_or mid.new i 0 ≡ get_or t.now i 0 }
{
    for i in 0..grammar_table::EXPRESSIONS_AT {
        base_words::put(mid, i, base_words::word(t, i));
    }
}

// The bodies of the first r symbols, one behind the other: how many expressions.
fn build(t: &[u32], mid: &mut [u32], r: usize, water: Option<Extent>) -> usize
    requires { r ≤ 64 }
    ensures { BuiltAll t.now r (from_of water) (end_of water) mid.old result mid.new }
{
    let mut reached = Reached { from: 0, count: 0 };
    for s in 0..r {
        reached = symbol(t, mid, s, water, reached.from, reached.count);
    }
    reached.count
}

// Step 1 (01, Lakes made plain): the intermediate grammar of t, into mid. The number of its expressions, 1,025 where they are more than 1,024: so
// `SteppedOne` promises it.
pub fn step_one(t: &grammar_table::Table, mid: &mut grammar_table::Table) -> usize
    ensures { SteppedOne t.now mid.new result }
{
    let r = records::symbols(t);
    if r > 64 {
        return 1025;
    }
    copy_low(t, mid);
    let count = build(t, mid, r, water(t, r));
    base_words::put(mid, 2, cap(count));
    count.min(1025)
}
