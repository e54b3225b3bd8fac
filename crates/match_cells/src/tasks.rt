// The cells of one place by the record of the byte that stands there (01, Meaning of a match): what is decided is copied, open symbols' bodies are evaluated in
// their order, then rounds are remembered. All evaluations are one loop over tasks, so that there is one place of code for them.
ghost use Rattle.std.specs.Prelude.{ℕ, ◌+◌, ◌*◌, ◌<◌, ◌≤◌, ◌≡◌, List, get_or, length};
ghost use Rattle.grammar_table.specs.Table.{words_from, symbol_count};
ghost use Rattle.grammar_table.specs.Trees.{bodies_of};
ghost use Rattle.match_eval.specs.steps.Firsts.{byte_at};
ghost use Rattle.match_eval.specs.steps.Memory.{count_at, Knows, Front};
ghost use Rattle.match_parts.specs.steps.Lists.{AllListed};
ghost use Rattle.match_plan.specs.steps.Plan.{Recorded};
ghost use Rattle.match_cells.specs.Cells.{row_of};
ghost use Rattle.match_cells.specs.steps.Runs.{copy_of};

use base_words::{put, word};
use grammar_table::Table;
use match_eval::memory::{Memory, PARTS_AT};
use match_parts::{Ask, Lists};
use match_plan::{FIRST_TASK, KEYS, Plan, TASKS};
use match_rounds::{First, Takers};

// The cells of n symbols from i on become the words of a record at o.
fn copy_row(cells: &mut [u32], plan: &Plan, o: usize, n: usize, i: usize)
    requires { (n ≤ 64) × (o + n ≤ 5120) × (i + n ≤ length cells.old) }
    ensures { cells.new ≡ copy_of plan.now o i n cells.old }
{
    cells[i..i + n].copy_from_slice(&plan[o..o + n]);
}

// The tasks of a place p, over n symbols: from i on m open symbols, whose cells are stored, then keys, whose rounds are remembered; k in all.
#[derive(Clone, Copy)]
struct Job {
    n: usize,
    i: usize,
    m: usize,
    k: usize,
    p: usize,
}

// All of them, one after the other. Each writes cells or memory between calls that are lent both: a struct of what is lent would have to be made anew for each.
fn tasks(
    t: &Table,
    s: &[u8],
    cells: &mut [u32],
    mem: &mut Memory,
    plan: &Plan,
    lists: &Lists,
    job: Job,
)
    requires { ((job.n ≡ symbol_count t.now) × (job.n ≤ 64) × (job.i < 8589934592) × (job.k < 4294967296) × (job.m ≤ job.k)
        × (length s.now ≤ 65535) × (job.p ≤ length s.now)) × ((j : ℕ) → j < job.m → get_or plan.now (job.i + j) 0 < job.n)
        × ((j : ℕ) → job.m ≤ j → j < job.k → (64 ≤ get_or plan.now (job.i + j) 0) × (get_or plan.now (job.i + j) 0 < 64 + get_or mem.old count_at 0))
        × AllListed t.now mem.old job.n lists.now × Knows t.now s.now cells.old job.n mem.old (job.p + 1) job.p }
    ensures { (cells.new
        ≡ row_of (bodies_of t.now) s.now job.p (words_from plan.now job.i job.m) cells.old)
        × Knows t.now s.now cells.new job.n mem.new job.p job.p
        × Front mem.old mem.new }
{
    let Job { n, i, m, k, p } = job;
    for j in 0..k {
        let w = word(plan, i + j);
        let at = word(lists, w);
        let v = match_parts::list_at(t, s, cells, mem, lists, Ask { n, i: at, p });
        if j < m {
            put(cells, p * n + w, v);
        } else {
            let y = word(mem, PARTS_AT + (w - KEYS));
            match_rounds::learn_first(t, s, cells, mem, n, First { y, p, a: v });
        }
    }
}

// A place p, over n symbols, where the byte with the record at o stands.
#[derive(Clone, Copy)]
pub struct Place {
    pub n: usize,
    pub o: usize,
    pub p: usize,
}

// Fills the cells of all symbols there, in whatever order the record is of, and remembers the rounds of each key.
pub fn place_by(
    t: &Table,
    s: &[u8],
    cells: &mut [u32],
    mem: &mut Memory,
    plan: &Plan,
    lists: &Lists,
    at: Place,
)
    requires { ((at.n ≡ symbol_count t.now) × (at.n ≤ 64) × (length s.now ≤ 65535) × (at.p ≤ length s.now)
        × ((length s.now + 1) * at.n ≤ length cells.old))
        × ((order : List ℕ) × Recorded t.now mem.old order at.n plan.now (byte_at s.now at.p) at.o)
        × AllListed t.now mem.old at.n lists.now × Knows t.now s.now cells.old at.n mem.old (at.p + 1) (at.p + 1) }
    ensures { ((order : List ℕ) → ((j : ℕ) → j < at.n → get_or order j 0 < at.n)
        → Recorded t.now mem.old order at.n plan.now (byte_at s.now at.p) at.o
        → cells.new
        ≡ row_of (bodies_of t.now) s.now at.p (words_from order 0 at.n)
        (copy_of plan.now at.o (at.p * at.n) at.n cells.old))
        × Knows t.now s.now cells.new at.n mem.new at.p at.p
        × Front mem.old mem.new }
{
    let Place { n, o, p } = at;
    copy_row(cells, plan, o, n, p * n);
    let m = word(plan, o + n);
    let k = word(plan, o + n + TASKS);
    let i = o + n + FIRST_TASK;
    tasks(t, s, cells, mem, plan, lists, Job { n, i, m, k, p });
    let d = word(plan, i + k);
    match_rounds::run_all(t, s, cells, mem, plan, n, Takers { i: i + k + 1, d, p });
}
