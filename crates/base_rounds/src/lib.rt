#![tactic(auto)]

ghost use Rattle.std.specs.Prelude.{◌≡◌, List, [], ◌∷◌, ℕ, ◌+◌, ◌*◌, ◌^◌, ◌<◌, ◌≤◌, length, get_or};
ghost use Rattle.base_words.specs.steps.Decides.{Decides};
ghost use Rattle.base_rounds.specs.laws.Cells.{Every};
ghost use Rattle.base_rounds.specs.laws.Pair.{Set2};
ghost use Rattle.base_rounds.specs.laws.Sys.{pushed, round_of, Shaped, empties, Stepped, Solved};

// What every edge hands on from `old`, added to `new`. Edges are two lists here and below, as `Solved` says them.
pub fn push(src: &[usize], dst: &[usize], old: &[[u64; 2]], new: &mut [[u64; 2]])
    requires { Shaped src.now dst.now (length new.old) × (length old.now ≡ length new.old) }
    ensures { new.new ≡ pushed src.now dst.now (length src.now) old.now new.old }
{
    for (from, to) in src.iter().zip(dst) {
        new[*to] = base_words::union(new[*to], old[*from]);
    }
}

// One by one, and not by `copy_from_slice`: for that the archive for C would ask its linker for `memmove`, which it needs for nothing else.
pub fn copy(from: &[[u64; 2]], to: &mut [[u64; 2]])
    requires { length from.now ≡ length to.old }
    ensures { to.new ≡ from.now }
{
    for i in 0..to.len() {
        to[i] = from[i];
    }
}

pub fn equal(a: &[[u64; 2]], b: &[[u64; 2]]) -> bool
    requires { length a.now ≡ length b.now }
    ensures { Decides (a.now ≡ b.now) result }
{
    a == b
}

pub fn clear(to: &mut [[u64; 2]])
    ensures { to.new ≡ empties (length to.old) }
{
    to.fill([0, 0]);
}

// One round in place, by way of `next`: whether it changed anything.
pub fn step(
    src: &[usize],
    dst: &[usize],
    base: &[[u64; 2]],
    cur: &mut [[u64; 2]],
    next: &mut [[u64; 2]],
) -> bool
    requires { Shaped src.now dst.now (length base.now) × (length cur.old ≡ length base.now) × (length next.old ≡ length base.now) }
    ensures { Stepped src.now dst.now base.now cur.old cur.new next.new result }
{
    copy(base, next);
    push(src, dst, cur, next);
    let still = equal(cur, next);
    copy(next, cur);
    !still
}

// Rounds from the empty sets until nothing changes: how many. It ends where a round changes nothing, and at no count.
pub fn solve(
    src: &[usize],
    dst: &[usize],
    base: &[[u64; 2]],
    cur: &mut [[u64; 2]],
    next: &mut [[u64; 2]],
) -> usize
    requires { Shaped src.now dst.now (length base.now) × (length cur.old ≡ length base.now) × (length next.old ≡ length base.now)
        × (length base.now ≤ 1024) × Every (Set2 64 64) [] (length base.now) base.now }
    ensures { Solved src.now dst.now base.now result cur.new next.new }
{
    clear(cur);
    let mut k: usize = 0;
    while step(src, dst, base, cur, next) {
        k += 1;
    }
    k
}
