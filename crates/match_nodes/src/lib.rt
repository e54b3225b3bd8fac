// The node list of a match (01, Meaning of a match): a walk over the cells in two passes, down the expressions and up their parents.
#![tactic(auto)]

ghost use Rattle.std.specs.Prelude.{◌+◌, ◌≤◌, ◌<◌, ◌≡◌, ◌∷◌, ◌++◌, length};
ghost use Rattle.grammar_table.specs.Table.{expression_count};
ghost use Rattle.grammar_table.specs.Trees.{bodies_of};
ghost use Rattle.match_meaning.specs.Meaning.{nd};
ghost use Rattle.match_eval.specs.Eval.{cell_at};
ghost use Rattle.match_eval.specs.steps.Memory.{Knows};
ghost use Rattle.match_list.specs.Nodes.{list_of, listing_of, words_of, room_of};
ghost use Rattle.match_desk.specs.steps.Desk.{Desk};
ghost use Rattle.match_walks.specs.steps.Tasks.{enter as entering, after, listed, AllAble};
ghost use Rattle.match_walks.specs.steps.Waits.{going, waiting, tasks_of, climb};
ghost use Rattle.match_lone.specs.steps.Lanes.{Laid, Behind};
ghost use Rattle.match_nodes.specs.steps.Passes.{out, note as noted, run, said};
ghost use Rattle.match_nodes.specs.steps.Turns.{Ready, State, mode_of, Enters, TurnsTo};
ghost use Rattle.match_nodes.specs.steps.Lanes.{Stepped, Strode, Strides};

use base_words::{put, word};
use grammar_table::{Table, records};
use match_desk::RETURNS_AT;
use match_eval::memory::Memory;
use match_lone::{Round, lane_of, repeats};
use match_walks::{Down, Filled, Up};

// The first node in list order that offends, by its number: it is too deep, or has no room. "11 and 12: .. then 11".
#[derive(Clone, Copy)]
pub enum Offence {
    Deep(usize),
    Full(usize),
}

// The deepest node that is listed.
const DEEPEST: usize = 255;
// No expression: where the start symbol is used. A number, for it is laid in the desk's returns: words of fixed memory.
const NOWHERE: usize = 2047;

// Whether an expression is done, or is to be walked.
#[derive(Clone, Copy)]
enum Mode {
    Done,
    Walk,
}

// Where a pass stands: how, on which level, at which expression; in the text, in the list.
#[derive(Clone, Copy)]
struct Stand {
    mode: Mode,
    level: usize,
    x: usize,
    place: usize,
    at: usize,
}

// How far rounds go that need no walk: in the text, in the list.
#[derive(Clone, Copy)]
struct Reached {
    place: usize,
    at: usize,
}

// What a text asks of a pass (`Ready`) stands in each contract: `match_walks::Filled` holds the cells, and `Ready` speaks of the expressions' count too.
// A pass: over which cells, how many nodes there is room for, how many words of the desk's lanes are laid, and whether it writes.
#[derive(Clone, Copy)]
struct Pass<'a> {
    filled: Filled<'a>,
    room: usize,
    lanes: usize,
    // a flag is plainer than two kinds of pass: both walk alike, and differ in one call
    write: bool,
    ghost small: { room < 4611686018427387904 },
}

impl Pass<'_> {
    // Node `at`, and the number of the next one.
    fn note(
        &self,
        nodes: &mut [u32],
        at: usize,
        r: usize,
        p: usize,
        q: usize,
        d: usize,
    ) -> Result<usize, Offence>
        requires { (r < 4294967296) × (p < 4294967296) × (q < 4294967296) × (d < 4294967296) }
        ensures { let g = self.now in out nodes.new result ≡ noted g.room g.write (out nodes.old (Ok at)) (nd r p q d) }
    {
        if d > DEEPEST {
            return Err(Offence::Deep(at));
        }
        if at >= self.room {
            return Err(Offence::Full(at));
        }
        if self.write {
            match_list::put_node(nodes, at, r, p, q, d);
        }
        Ok(at + 1)
    }

    // A symbol that matches at a stand, which uses it: its node, and then its body, unless that holds no symbol. The way back is kept for its level.
    fn enter(
        &self,
        nodes: &mut [u32],
        desk: &mut [u32],
        symbol: usize,
        from: Stand,
    ) -> Result<Stand, Offence>
        requires { let f = self.now.filled in Ready f.table.now f.text.now f.cells.now f.n × Desk f.table.now desk.old (expression_count f.table.now)
            × (from.level ≤ 256) × (from.x < 4294967296) × (from.place ≤ length f.text.now)
            × (cell_at f.text.now f.cells.now f.n symbol from.place ≡ 0 → ⊥)
            × AllAble f.table.now f.text.now f.cells.now f.n (going f.table.now desk.old from.level from.x ++ waiting f.table.now desk.old from.level)
            (after f.table.now f.text.now f.cells.now f.n (entering symbol from.level) from.place) }
        ensures { let g = self.now in let f = g.filled in Enters f.table.now f.text.now f.cells.now f.n g.room g.write (out nodes.old (Ok from.at)) nodes.new
            (entering symbol from.level ∷ (going f.table.now desk.old from.level from.x ++ waiting f.table.now desk.old from.level))
            from.place 0 desk.new result
            × Desk f.table.now desk.new (expression_count f.table.now) × Behind desk.old desk.new }
    {
        let Filled {
            table,
            text,
            cells,
            n,
            ..
        } = self.filled;
        let Stand {
            level,
            x,
            place,
            at,
            ..
        } = from;
        let end = place + (match_eval::cell_at(text, cells, n, symbol, place) - 1);
        let body = records::body(table, symbol);
        let at = self.note(nodes, at, symbol, place, end, level)?;
        if word(desk, body) == 0 {
            return Ok(Stand {
                mode: Mode::Done,
                level,
                x,
                place: end,
                at,
            });
        }
        put(desk, RETURNS_AT + level, x);
        Ok(Stand {
            mode: Mode::Walk,
            level: level + 1,
            x: body,
            place,
            at,
        })
    }

    // A round of the expression of a stand, if the byte at its place decides what it takes and lists: how many nodes there are then.
    fn by_byte(&self, nodes: &mut [u32], desk: &[u32], st: Stand) -> Result<Option<usize>, Offence>
        requires { let f = self.now.filled in Ready f.table.now f.text.now f.cells.now f.n × Desk f.table.now desk.now (expression_count f.table.now)
            × (st.level ≤ 256) × (st.x ≤ expression_count f.table.now) × (st.place ≤ length f.text.now)
            × Laid f.table.now f.mem.now desk.now self.now.lanes }
        ensures { let g = self.now in let f = g.filled in Stepped f.table.now f.text.now f.cells.now f.n g.room g.write (out nodes.old (Ok st.at)) nodes.new
            st.x st.level st.place result }
    {
        let Filled {
            table,
            text,
            mem,
            ..
        } = self.filled;
        let Stand {
            level,
            x,
            place,
            at,
            ..
        } = st;
        match lane_of(
            table,
            mem,
            desk,
            self.lanes,
            x,
            match_eval::byte_at(text, place),
        ) {
            None => Ok(None),
            Some(Round::Silent) => Ok(Some(at)),
            Some(Round::Node(r)) => Ok(Some(self.note(nodes, at, r, place, place + 1, level)?)),
        }
    }

    // Such rounds one after the other, as many as there are.
    fn stride(&self, nodes: &mut [u32], desk: &[u32], first: Stand) -> Result<Reached, Offence>
        requires { let f = self.now.filled in Ready f.table.now f.text.now f.cells.now f.n × Desk f.table.now desk.now (expression_count f.table.now)
            × (first.level ≤ 256) × (first.x ≤ expression_count f.table.now) × (first.place ≤ length f.text.now)
            × Laid f.table.now f.mem.now desk.now self.now.lanes }
        ensures { let g = self.now in let f = g.filled in Strode f.table.now f.text.now f.cells.now f.n g.room g.write (out nodes.old (Ok first.at)) nodes.new
            first.x first.level first.place result }
    {
        let len = self.filled.text.len();
        let mut at = first.at;
        for place in first.place..len {
            match self.by_byte(nodes, desk, Stand { place, at, ..first })? {
                Some(next) => at = next,
                None => return Ok(Reached { place, at }),
            }
        }
        Ok(Reached { place: len, at })
    }

    // The same behind a round of a repeat, if there are some.
    fn lane(&self, nodes: &mut [u32], desk: &[u32], st: Stand) -> Result<Option<Reached>, Offence>
        requires { let f = self.now.filled in Ready f.table.now f.text.now f.cells.now f.n × Desk f.table.now desk.now (expression_count f.table.now)
            × (st.level ≤ 256) × (st.x < 4294967296) × (st.place ≤ length f.text.now)
            × Laid f.table.now f.mem.now desk.now self.now.lanes }
        ensures { let g = self.now in let f = g.filled in Strides f.table.now f.text.now f.cells.now f.n g.room g.write desk.now
            (out nodes.old (Ok st.at)) nodes.new
            st.x st.level st.place result }
    {
        if !repeats(self.filled.table, desk, st.x) {
            return Ok(None);
        }
        let far = self.stride(nodes, desk, st)?;
        Ok(if far.place > st.place {
            Some(far)
        } else {
            None
        })
    }

    // One turn: an expression is walked, or one that is done gives way to what comes behind it; of rounds that bytes decide all are one turn. None is behind
    // the last.
    fn turn(&self, nodes: &mut [u32], desk: &mut [u32], st: Stand) -> Result<Option<Stand>, Offence>
        requires { let f = self.now.filled in Ready f.table.now f.text.now f.cells.now f.n
            × State f.table.now f.text.now f.cells.now f.n desk.old (mode_of st.mode) st.level st.x st.place
            × Laid f.table.now f.mem.now desk.old self.now.lanes }
        ensures { let g = self.now in let f = g.filled in TurnsTo f.table.now f.text.now f.cells.now f.n g.room g.write (out nodes.old (Ok st.at)) nodes.new
            (tasks_of f.table.now desk.old (mode_of st.mode) st.level st.x) st.place (climb (mode_of st.mode) st.level st.x) desk.new result
            × Desk f.table.now desk.new (expression_count f.table.now) × Behind desk.old desk.new }
    {
        match st.mode {
            Mode::Walk => match self.filled.walk(desk, st.x, st.place) {
                Down::Done(place) => Ok(Some(Stand {
                    mode: Mode::Done,
                    place,
                    ..st
                })),
                Down::Walk(x) => Ok(Some(Stand { x, ..st })),
                Down::Enter(symbol) => Ok(Some(self.enter(nodes, desk, symbol, st)?)),
            },
            Mode::Done => match self.filled.rise(desk, st.x, st.place) {
                Up::Over => {
                    // back to where the body's symbol was entered; above the first level is the end
                    if st.level == 0 {
                        return Ok(None);
                    }
                    let level = st.level - 1;
                    let x = word(desk, RETURNS_AT + level);
                    Ok(Some(Stand { level, x, ..st }))
                }
                Up::Done(x) => Ok(Some(Stand { x, ..st })),
                Up::Walk(x) if x == st.x => match self.lane(nodes, desk, st)? {
                    Some(Reached { place, at }) => Ok(Some(Stand { place, at, ..st })),
                    None => Ok(Some(Stand {
                        mode: Mode::Walk,
                        ..st
                    })),
                },
                Up::Walk(x) => Ok(Some(Stand {
                    mode: Mode::Walk,
                    x,
                    ..st
                })),
            },
        }
    }

    // The turns from a stand on: the count of all nodes.
    fn go_on(&self, nodes: &mut [u32], desk: &mut [u32], first: Stand) -> Result<usize, Offence>
        requires { let f = self.now.filled in Ready f.table.now f.text.now f.cells.now f.n
            × State f.table.now f.text.now f.cells.now f.n desk.old (mode_of first.mode) first.level first.x first.place
            × Laid f.table.now f.mem.now desk.old self.now.lanes }
        ensures { let g = self.now in let f = g.filled in (out nodes.new result
            ≡ run g.room g.write (out nodes.old (Ok first.at))
            (listed f.table.now f.text.now f.cells.now f.n (tasks_of f.table.now desk.old (mode_of first.mode) first.level first.x) first.place))
            × Desk f.table.now desk.new (expression_count f.table.now) × Behind desk.old desk.new }
    {
        let mut st = first;
        while let Some(next) = self.turn(nodes, desk, st)? {
            st = next;
        }
        Ok(st.at)
    }

    // The whole pass, from the start symbol on.
    fn list(&self, nodes: &mut [u32], desk: &mut [u32]) -> Result<usize, Offence>
        requires { let f = self.now.filled in Ready f.table.now f.text.now f.cells.now f.n × Desk f.table.now desk.old (expression_count f.table.now)
            × Laid f.table.now f.mem.now desk.old self.now.lanes }
        ensures { let g = self.now in let f = g.filled in (out nodes.new result
            ≡ run g.room g.write (out nodes.old (Ok 0)) (list_of (bodies_of f.table.now) f.text.now f.cells.now))
            × Desk f.table.now desk.new (expression_count f.table.now) × Behind desk.old desk.new }
    {
        let Filled { text, cells, n, .. } = self.filled;
        if match_eval::cell_at(text, cells, n, 0, 0) == 0 {
            return Ok(0);
        }
        let start = Stand {
            mode: Mode::Walk,
            level: 0,
            x: NOWHERE,
            place: 0,
            at: 0,
        };
        let first = self.enter(nodes, desk, 0, start)?;
        self.go_on(nodes, desk, first)
    }
}

// The nodes of the start symbol at 0 into the lent words, all or none: how many they are. What filling the cells left in the memory is not evaluated again.
pub fn list(
    t: &Table,
    s: &[u8],
    cells: &[u32],
    mem: &Memory,
    n: usize,
    nodes: &mut [u32],
) -> Result<usize, Offence>
    requires { Ready t.now s.now cells.now n × Knows t.now s.now cells.now n mem.now 0 0 }
    ensures { (said result ≡ listing_of (room_of nodes.old) 0 (list_of (bodies_of t.now) s.now cells.now))
        × (nodes.new
        ≡ words_of (room_of nodes.old) nodes.old (list_of (bodies_of t.now) s.now cells.now)) }
{
    let filled = Filled {
        table: t,
        text: s,
        cells,
        mem,
        n,
    };
    let room = nodes.len() / match_list::NODE_WORDS;
    let mut desk: [u32; match_desk::WORDS] = [0; match_desk::WORDS];
    match_desk::learn_all(t, &mut desk);
    let lanes = match_lone::lay_all(t, mem, &mut desk);
    let looks = Pass {
        filled,
        room,
        lanes,
        write: false,
    };
    looks.list(nodes, &mut desk)?;
    let writes = Pass {
        filled,
        room,
        lanes,
        write: true,
    };
    writes.list(nodes, &mut desk)
}
