#![tactic(auto)]

ghost use Rattle.std.specs.Prelude.{◌≡◌, Bool, true, false, List, [], ◌∷◌, ℕ, ◌+◌, ◌-◌, ◌*◌, ◌^◌, ◌<◌, ◌≤◌, length, get_or, set};
ghost use Rattle.lake_step_one.specs.steps.Extents.{from_of, end_of};
ghost use Rattle.lake_step_two.specs.steps.Skips.{Added, AddedSymbol, AddedTerminal, AddedSymbols, AddedTerminals, ChoiceTo, SkipTo, PlainTo};
ghost use Rattle.lake_step_two.specs.steps.Stepped.{PlainNext, PlainAll, SteppedTwo};

use grammar_table::records;
use lake_step_one::{Extent, Reached, cap, is_lake};

// Here and below the tables, the set and the count so far are handed on one by one: so `Added`, `PlainTo` and `PlainNext` name them.
// One alternative more, behind the first m; the choice that ends there began at o, and there is none where m is o (01, step 2: `s1 / .. / sn`).
fn add(out: &mut [u32], op: usize, x: usize, o: usize, m: usize) -> usize
    requires { (op < 4294967296) × (x < 4294967296) × (m < 140737488355328) }
    ensures { (result ≤ m + 2) × Added op x o out.old m out.new result }
{
    records::store_expression(out, m, op, x, 0);
    if m == o {
        return m + 1;
    }
    let left = cap(m.saturating_sub(1));
    records::store_expression(out, m + 1, grammar_table::CHOICE, left, cap(m));
    m + 2
}

// Symbol i, if it is a nonterminal of the set: "Lakes in ALT(b) are dropped".
fn add_symbol(t: &[u32], out: &mut [u32], s: [u64; 2], i: usize, o: usize, m: usize) -> usize
    requires { (i < 64) × (m < 140737488355328) }
    ensures { (result ≤ m + 2) × AddedSymbol t.now s i o out.old m out.new result }
{
    if base_words::member(s, i) && !is_lake(t, i) {
        add(out, grammar_table::SYMBOL, i, o, m)
    } else {
        m
    }
}

// Terminal i, if it is in the set.
fn add_terminal(out: &mut [u32], s: [u64; 2], i: usize, o: usize, m: usize) -> usize
    requires { (i < 64) × (m < 140737488355328) }
    ensures { (result ≤ m + 2) × AddedTerminal s i o out.old m out.new result }
{
    if base_words::member(s, 64 + i) {
        add(out, grammar_table::TERMINAL, i, o, m)
    } else {
        m
    }
}

// "the nonterminals of ALT(b) by number"
fn add_symbols(t: &[u32], out: &mut [u32], s: [u64; 2], n: usize, o: usize) -> usize
    requires { (n ≤ 64) × (o < 70368744200000) }
    ensures { (result ≤ o + 128) × AddedSymbols t.now s n o out.old out.new result }
{
    let mut m = o;
    for i in 0..n {
        m = add_symbol(t, out, s, i, o, m);
    }
    m
}

// "then its terminals by number"
fn add_terminals(out: &mut [u32], s: [u64; 2], n: usize, o: usize, from: usize) -> usize
    requires { (n ≤ 64) × (from < 70368744300000) }
    ensures { (result ≤ from + 128) × AddedTerminals s n o out.old from out.new result }
{
    let mut m = from;
    for i in 0..n {
        m = add_terminal(out, s, i, o, m);
    }
    m
}

// How many symbols and terminals there are to choose from.
#[derive(Clone, Copy)]
struct Sizes {
    symbols: usize,
    terminals: usize,
    ghost few: { (symbols ≤ 64) × (terminals ≤ 64) },
}

// `s1 / .. / sn`
fn choice(t: &[u32], out: &mut [u32], s: [u64; 2], among: Sizes, m: usize) -> usize
    requires { m < 70368744200000 }
    ensures { (result ≤ m + 256) × ChoiceTo t.now s among.symbols among.terminals out.old m out.new result }
{
    let p = add_symbols(t, out, s, among.symbols, m);
    add_terminals(out, s, among.terminals, m, p)
}

// `!(s1 / .. / sn) .`; "`.` when no alternatives are left" (02, §4).
fn skip(t: &[u32], out: &mut [u32], s: [u64; 2], among: Sizes, m: usize) -> usize
    requires { m < 70368744200000 }
    ensures { (result ≤ m + 259) × SkipTo t.now s among.symbols among.terminals out.old m out.new result }
{
    let p = choice(t, out, s, among, m);
    if p == m {
        records::store_expression(out, p, grammar_table::TERMINAL, 0, 0);
        return p + 1;
    }
    let l = cap(p.saturating_sub(1));
    records::store_expression(out, p, grammar_table::NEVER, l, 0);
    records::store_expression(out, p + 1, grammar_table::TERMINAL, 0, 0);
    records::store_expression(out, p + 2, grammar_table::SEQUENCE, cap(p), cap(p + 1));
    p + 3
}

// "Lake body b becomes `b / !(s1 / .. / sn) .`" (01); "or just `!(..) .`" (02, §4).
fn lake_body(
    t: &[u32],
    out: &mut [u32],
    s: [u64; 2],
    among: Sizes,
    own: Option<Extent>,
    m: usize,
) -> usize
    requires { m < 70364449210368 }
    ensures { (result ≤ m + 4294967556)
        × PlainTo t.now true s among.symbols among.terminals (from_of own) (end_of own) out.old m out.new result }
{
    let Some(own) = own else {
        return skip(t, out, s, among, m);
    };
    let k = own.count();
    lake_step_one::copy_run(t, out, own.from, k, m);
    let q = m + k;
    let p = skip(t, out, s, among, q);
    let x = cap(q.saturating_sub(1));
    let y = cap(p.saturating_sub(1));
    records::store_expression(out, p, grammar_table::CHOICE, x, y);
    p + 1
}

// A nonterminal's right side; refusal 5 sees to it that there is one.
fn right_side(t: &[u32], out: &mut [u32], own: Option<Extent>, m: usize) -> usize
    requires { m < 70364449210368 }
    ensures { (result ≤ m + 4294967556)
        × ((s : List ℕ) (r x : ℕ) → PlainTo t.now false s r x (from_of own) (end_of own) out.old m out.new result) }
{
    let Some(own) = own else {
        records::store_expression(out, m, grammar_table::TERMINAL, 0, 0);
        return m + 1;
    };
    let k = own.count();
    lake_step_one::copy_run(t, out, own.from, k, m);
    m + k
}

// The plain body of one symbol, a lake's or another's, by its intermediate body, if it has one: `PlainTo` takes the same Bool.
fn body(
    t: &[u32],
    out: &mut [u32],
    lake: bool,
    s: [u64; 2],
    among: Sizes,
    own: Option<Extent>,
    m: usize,
) -> usize
    requires { m < 70364449210368 }
    ensures { (result ≤ m + 4294967556)
        × PlainTo t.now lake s among.symbols among.terminals (from_of own) (end_of own) out.old m out.new result }
{
    if lake {
        lake_body(t, out, s, among, own, m)
    } else {
        right_side(t, out, own, m)
    }
}

// The plain body of symbol s, its intermediate expressions from `from` on in t, behind the first m.
fn symbol(
    t: &[u32],
    alts: &[[u64; 2]],
    out: &mut [u32],
    among: Sizes,
    s: usize,
    from: usize,
    m: usize,
) -> Reached
    requires { (s < 64) × (from < 4294967296) × (m < 70364449210368) }
    ensures { (result.from < 4294967296) × (result.count ≤ m + 4294967556)
        × PlainNext t.now alts.now among.symbols among.terminals s from m out.old result.from result.count
        out.new }
{
    let b = records::body(t, s);
    let alt = lake_sets::alt_of(t, alts, s);
    let own = Extent::of(from, b);
    let count = body(t, out, is_lake(t, s), alt, among, own, m);
    records::store_body(out, s, cap(count));
    Reached {
        from: lake_step_one::next_from(from, b),
        count,
    }
}

// The plain bodies of the first r symbols, one behind the other: how many expressions.
fn build(t: &[u32], alts: &[[u64; 2]], out: &mut [u32], among: Sizes) -> usize
    ensures { PlainAll t.now alts.now among.symbols among.terminals out.old result out.new }
{
    let mut reached = Reached { from: 0, count: 0 };
    for s in 0..among.symbols {
        reached = symbol(t, alts, out, among, s, reached.from, reached.count);
    }
    reached.count
}

// Step 2 (01, Lakes made plain): the plain grammar of the intermediate grammar t and its ALT sets, into out. The number of its expressions, 1,025 where they
// are more than 1,024: so `SteppedTwo` promises it.
pub fn step_two(
    t: &grammar_table::Table,
    alts: &[[u64; 2]; 1024],
    out: &mut grammar_table::Table,
) -> usize
    ensures { SteppedTwo t.now alts.now out.new result }
{
    let symbols = records::symbols(t);
    let terminals = records::terminals(t);
    if symbols > 64 || terminals > 64 {
        return 1025;
    }
    lake_step_one::copy_low(t, out);
    let count = build(t, alts, out, Sizes { symbols, terminals });
    base_words::put(out, 2, cap(count));
    count.min(1025)
}
