// The smallest symbol on a loop of first calls, from a table with a body for each symbol (01, Lakes made plain).
ghost use Rattle.std.specs.Prelude.{ℕ, ◌≤◌, ◌<◌, ◌≡◌, Bool, true, false, List, length, get_or, replicate};
ghost use Rattle.lake_calls.specs.steps.Marks.{Round, AllMarks, Looped, LoopedAll};
ghost use Rattle.grammar_table.specs.Table.{symbol_count};

use grammar_table::records;

// Here and below each run of marks or calls is lent by itself: so `Round`, `AllMarks` and `AllFirsts` name them.
// One round of the ε marks, all symbols at once.
fn mark_round(t: &[u32], marks: &[bool], next: &mut [bool])
    requires { length next.old ≤ 64 }
    ensures { Round t.now (length next.old) marks.now next.new }
{
    for i in 0..next.len() {
        next[i] = crate::first(t, marks, records::body(t, i)).empty;
    }
}

// One by one, as `base_rounds::copy`, which says why.
fn copy(from: &[bool], to: &mut [bool])
    requires { length from.now ≡ length to.old }
    ensures { to.new ≡ from.now }
{
    for i in 0..to.len() {
        to[i] = from[i];
    }
}

// The ε marks by symbol, from none on, as many rounds as there are symbols.
pub fn mark_all(t: &[u32], marks: &mut [bool], next: &mut [bool])
    requires { (length marks.old ≤ 64) × (length next.old ≡ length marks.old) }
    ensures { AllMarks t.now (length marks.old) marks.new }
{
    marks.fill(false);
    for _ in 0..marks.len() {
        mark_round(t, marks, next);
        copy(next, marks);
    }
}

// The smallest symbol on a loop of first calls, if one is.
pub fn loop_in(t: &[u32], marks: &mut [bool], next: &mut [bool], calls: &mut [u64]) -> Option<usize>
    requires { (length calls.old ≤ 64) × (length marks.old ≡ length calls.old) × (length next.old ≡ length calls.old) }
    ensures { Looped t.now (length calls.old) result }
{
    mark_all(t, marks, next);
    crate::calls_of(t, marks, calls);
    crate::loop_at(calls)
}

// The same at the front of longer runs.
fn loop_front(
    t: &[u32],
    n: usize,
    marks: &mut [bool],
    next: &mut [bool],
    calls: &mut [u64],
) -> Option<usize>
    requires { (n ≤ 64) × (n ≤ length marks.old) × (n ≤ length next.old) × (n ≤ length calls.old) }
    ensures { Looped t.now n result }
{
    loop_in(t, &mut marks[..n], &mut next[..n], &mut calls[..n])
}

// Of all symbols of a table: the number of symbols where none is on a loop, so `placed` says it and reading compares it for refusal 8
// (`by-eight`, `by-none`).
pub fn table_loop(t: &[u32]) -> usize
    requires { symbol_count t.now ≤ 64 }
    ensures { LoopedAll t.now result }
{
    let mut marks = [false; 64];
    let mut next = [false; 64];
    let mut calls = [0; 64];
    let n = records::symbols(t);
    loop_front(t, n, &mut marks, &mut next, &mut calls).unwrap_or(n)
}
