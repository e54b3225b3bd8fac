// The order in which the cells of a table are filled (01, Meaning of a match): its symbols by rank.
ghost use Rattle.std.specs.Prelude.{◌≤◌, ◌≡◌, length};
ghost use Rattle.lake_calls.specs.steps.Ordering.{OrderedIn};

// The symbols of a table by rank, then by number, at the front of `order`: how many. Each run is lent by itself, as for the marks.
fn order_in(
    t: &[u32],
    marks: &mut [bool],
    next: &mut [bool],
    calls: &mut [u64],
    ranks: &mut [usize],
    order: &mut [u32],
) -> usize
    requires { (length calls.old ≤ 64) × (length marks.old ≡ length calls.old) × (length next.old ≡ length calls.old)
        × (length ranks.old ≡ length calls.old) × (length calls.old ≤ length order.old) }
    ensures { OrderedIn t.now (length calls.old) order.old order.new }
{
    crate::loops::mark_all(t, marks, next);
    crate::calls_of(t, marks, calls);
    crate::ranks(calls, ranks);
    crate::order(ranks, order)
}

// The same at the front of longer runs.
pub fn order_front(
    t: &[u32],
    n: usize,
    marks: &mut [bool],
    next: &mut [bool],
    calls: &mut [u64],
    ranks: &mut [usize],
    order: &mut [u32],
) -> usize
    requires { (n ≤ 64) × (n ≤ length marks.old) × (n ≤ length next.old) × (n ≤ length calls.old) × (n ≤ length ranks.old)
        × (n ≤ length order.old) }
    ensures { OrderedIn t.now n order.old order.new }
{
    order_in(
        t,
        &mut marks[..n],
        &mut next[..n],
        &mut calls[..n],
        &mut ranks[..n],
        order,
    )
}
