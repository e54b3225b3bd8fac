// The walk of the node list without what is written: which alternative of a choice is taken, what walking an expression comes to, and what comes behind one
// that is done.
#![tactic(auto)]

ghost use Rattle.std.specs.Prelude.{◌+◌, ◌-◌, ◌≤◌, ◌<◌, ◌≡◌, true, ◌⊎◌, length};
ghost use Rattle.grammar_table.specs.Table.{expression_count};
ghost use Rattle.match_eval.specs.steps.Memory.{Knows};
ghost use Rattle.match_desk.specs.steps.Desk.{Desk, kind_of};
ghost use Rattle.match_desk.specs.steps.Parts.{Made};
ghost use Rattle.match_walks.specs.laws.Known.{Knows-prop};
ghost use Rattle.match_walks.specs.steps.Tasks.{takes};
ghost use Rattle.match_walks.specs.steps.Picks.{Picked, Chosen};
ghost use Rattle.match_walks.specs.steps.Walks.{Walkable, Descends, Ascends};

use base_words::word;
use grammar_table::{Table, records};
use match_desk::{PARENTS_AT, Seen, look};
use match_eval::memory::{Memory, said};

// What walking an expression comes to: it is done, up to a place; another is to be walked where it stands; a symbol is to be entered there.
#[derive(Clone, Copy)]
pub enum Down {
    Done(usize),
    Walk(usize),
    Enter(usize),
}

// What comes behind an expression that is done, at the place where it ends: its body is done; its parent is; another is to be walked.
#[derive(Clone, Copy)]
pub enum Up {
    Over,
    Done(usize),
    Walk(usize),
}

// A text's cells, filled by a table of n symbols, and what filling them left in the memory.
#[derive(Clone, Copy)]
pub struct Filled<'a> {
    pub table: &'a Table,
    pub text: &'a [u8],
    pub cells: &'a [u32],
    pub mem: &'a Memory,
    pub n: usize,
    pub ghost few: { n ≤ 64 },
    pub ghost short: { length text.now ≤ 65535 },
    pub ghost known: { Knows table.now text.now cells.now n mem.now 0 0 } by { Knows-prop table.now text.now cells.now n mem.now 0 0 },
}

impl Filled<'_> {
    // Expression x - 1.
    fn look(&self, x: usize) -> Seen
        requires { (0 < x) × (x < 2048) }
        ensures { Made self.now.table.now x result.op result.left result.y result.z }
    {
        let table = self.table;
        look(table, x)
    }

    // Whether x is a choice.
    fn is_choice(&self, x: usize) -> bool
        requires { x < 2048 }
        ensures { result ≡ true → (0 < x) × (kind_of self.now.table.now x ≡ 3) }
    {
        let table = self.table;
        x > 0 && records::op(table, x - 1) == grammar_table::CHOICE
    }

    // What x takes at p, where most often the byte there decides it.
    fn round(&self, x: usize, p: usize) -> usize
        requires { (x < 4294967296) × (p ≤ length self.now.text.now) }
        ensures { let f = self.now in result ≡ takes f.table.now f.text.now f.cells.now f.n x p }
    {
        match_eval::round(self.table, self.text, self.cells, self.mem, self.n, x, p)
    }

    // The same of what is most often a symbol.
    fn part_at(&self, x: usize, p: usize) -> usize
        requires { (x < 4294967296) × (p ≤ length self.now.text.now) }
        ensures { let f = self.now in result ≡ takes f.table.now f.text.now f.cells.now f.n x p }
    {
        match_eval::part_at(self.table, self.text, self.cells, self.mem, self.n, x, p)
    }

    // Whether the byte at p decides that x fails there.
    fn barred(&self, x: usize, p: usize) -> bool
        requires { p ≤ length self.now.text.now }
        ensures { let f = self.now in result ≡ true → takes f.table.now f.text.now f.cells.now f.n x p ≡ 0 }
    {
        let mem = self.mem;
        said(mem, x, match_eval::byte_at(self.text, p)) == 1
    }

    // The first alternative of x that matches at p and is no choice itself: choices nest to the left, each alternative is evaluated once, and a choice of
    // which the byte at p rules out all is passed over.
    fn pick(&self, x: usize, p: usize) -> Option<usize>
        requires { (x < 2048) × (p ≤ length self.now.text.now) }
        ensures { let f = self.now in Picked f.table.now f.text.now f.cells.now f.n x p result }
    {
        if self.barred(x, p) {
            return None;
        }
        if self.is_choice(x) {
            let Seen { y, z, .. } = self.look(x);
            // the arms of `or_else`: a closure that calls its own function has no measure of its own
            return match self.pick(y, p) {
                Some(a) => Some(a),
                None => self.pick(z, p),
            };
        }
        if self.part_at(x, p) == 0 {
            None
        } else {
            Some(x)
        }
    }

    // Of a choice, one of whose parts matches, that part, or an alternative of it: where the byte at p rules out one part, nothing is evaluated.
    fn half(&self, g: Seen, p: usize) -> usize
        requires { (g.y < 2048) × (g.z < 2048) × (p ≤ length self.now.text.now) }
        ensures { let f = self.now in Chosen f.table.now f.text.now f.cells.now f.n g.y g.z p result × ((result ≤ g.y) ⊎ (result ≤ g.z)) }
    {
        let Seen { y, z, .. } = g;
        if self.barred(z, p) {
            return y;
        }
        // the arms of `unwrap_or`, so that each has the law of its own case
        match self.pick(y, p) {
            Some(a) => a,
            None => z,
        }
    }

    // Of a choice, one of whose parts matches, the alternative that does.
    fn choose(&self, g: Seen, p: usize) -> usize
        requires { (g.y < 2048) × (g.z < 2048) × (p ≤ length self.now.text.now) }
        ensures { let f = self.now in Chosen f.table.now f.text.now f.cells.now f.n g.y g.z p result }
    {
        // no counted loop: a cursor down the choices, to where there is none
        let mut x = self.half(g, p);
        while self.is_choice(x) {
            x = self.half(self.look(x), p);
        }
        x
    }

    // Where x ends, which matches at p. A guard takes nothing, and is not evaluated.
    fn past(&self, x: usize, p: usize) -> usize
        requires { let f = self.now in (x < 2048) × (p ≤ length f.text.now) × (takes f.table.now f.text.now f.cells.now f.n x p ≡ 0 → ⊥) }
        ensures { let f = self.now in result ≡ p + (takes f.table.now f.text.now f.cells.now f.n x p - 1) }
    {
        if x > 0 && self.look(x).op >= grammar_table::AHEAD {
            return p;
        }
        p + (self.round(x, p) - 1)
    }

    // What walking x comes to: it matches at p, so that nothing is evaluated but what is chosen by it.
    pub fn walk(&self, desk: &[u32], x: usize, p: usize) -> Down
        requires { let f = self.now in Walkable f.table.now f.text.now f.cells.now f.n desk.now x p }
        ensures { let f = self.now in Descends f.table.now f.text.now f.cells.now f.n desk.now x p result }
    {
        // what lists no node is passed over
        if x == 0 || word(desk, x) == 0 {
            return Down::Done(self.past(x, p));
        }
        let g = self.look(x);
        match g.op {
            grammar_table::SYMBOL => Down::Enter(g.left),
            grammar_table::SEQUENCE => Down::Walk(g.y),
            grammar_table::CHOICE => Down::Walk(self.choose(g, p)),
            grammar_table::OPTION => {
                if self.round(g.y, p) == 0 {
                    Down::Done(p)
                } else {
                    Down::Walk(g.y)
                }
            }
            grammar_table::STAR => {
                if self.round(g.y, p) <= 1 {
                    Down::Done(p)
                } else {
                    Down::Walk(g.y)
                }
            }
            grammar_table::PLUS => Down::Walk(g.y),
            _ => Down::Done(self.past(x, p)),
        }
    }

    // What comes behind x, which is done at p: the right part of its sequence; a further round, up to the first that fails or takes nothing; or its parent is
    // done.
    pub fn rise(&self, desk: &[u32], x: usize, p: usize) -> Up
        requires { let f = self.now in Desk f.table.now desk.now (expression_count f.table.now) × (expression_count f.table.now ≤ 1024)
            × (x < 4294967296) × (p ≤ length f.text.now) }
        ensures { let f = self.now in Ascends f.table.now f.text.now f.cells.now f.n desk.now x p result }
    {
        let e = word(desk, PARENTS_AT + x);
        if e == 0 {
            return Up::Over;
        }
        let Seen { op, y, z, .. } = self.look(e);
        match op {
            grammar_table::SEQUENCE if x == y => Up::Walk(z),
            grammar_table::STAR | grammar_table::PLUS if self.round(x, p) > 1 => Up::Walk(x),
            _ => Up::Done(e),
        }
    }
}
