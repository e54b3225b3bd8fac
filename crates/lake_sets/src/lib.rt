#![tactic(auto)]

ghost use Rattle.std.specs.Prelude.{◌≡◌, Bool, true, false, cond, List, [], ◌∷◌, ℕ, ◌+◌, ◌-◌, ◌*◌, ◌^◌, ◌<◌, ◌≤◌, length, get_or, set, replicate, take};
ghost use Rattle.base_words.specs.Set.{empty, union_of};
ghost use Rattle.grammar_table.specs.Table.{part_by, part_in, up_to, symbol_word};
ghost use Rattle.lake_rules.specs.Beginning.{nothing, marked, root_eps, begin_by};
ghost use Rattle.lake_rules.specs.Analysis.{is_use, uses_alt};
ghost use Rattle.lake_sets.specs.steps.Steps.{pair_at, root_in, Small, Tame, Begun, BegunAll, MarkedOnce, MarkedAll, kept, edges_by, Grown};
ghost use Rattle.lake_sets.specs.steps.Steps.{handed, succeed_given, alt_given, Fine, Gave, FlowedAlong, FlowedFrom, RoundsAsk, alt_in};
ghost use Rattle.lake_rules.specs.laws.Reached.{Flowed};
ghost use Rattle.lake_rules.specs.Flows.{edge as edge_to, edge_into, gift as gift_to, succeed_gifts, alt_gifts, given, when};
ghost use Rattle.base_rounds.specs.laws.Sys.{empties, edges, Solved};
ghost use Rattle.base_rounds.specs.laws.Pair.{Set2};
ghost use Rattle.base_rounds.specs.laws.Flow.{Inside};

use grammar_table::records;

// The three sets of an expression, which travel together with its ε mark (01, Lakes made plain).
#[derive(Clone, Copy)]
pub struct Sets {
    pub begin: [u64; 2],
    pub succeed: [u64; 2],
    pub alt: [u64; 2],
    pub eps: bool,
}

// An expression's record in a table: its kind and two words.
#[derive(Clone, Copy)]
pub struct Record {
    pub op: usize,
    pub left: usize,
    pub right: usize,
}

pub fn node(t: &grammar_table::Table, e: usize) -> Record
    requires { e < 1024 }
    ensures { (part_by result.op result.left result.right ≡ part_in t.now e) × (result.left < 4294967296) }
{
    Record {
        op: records::op(t, e),
        left: records::left(t, e),
        right: records::right(t, e),
    }
}

// The set at i; the empty set past the end.
pub fn set_at(s: &[[u64; 2]], i: usize) -> [u64; 2]
    ensures { result ≡ get_or s.now i empty }
{
    s.get(i).copied().unwrap_or([0, 0])
}

// The mark at i; no mark past the end.
pub fn flag_at(s: &[bool], i: usize) -> bool
    ensures { result ≡ get_or s.now i false }
{
    s.get(i).copied().unwrap_or(false)
}

pub fn bit(k: usize) -> u64
    ensures { k < 64 → result ≡ 2 ^ k }
{
    if k < 64 { 1 << k } else { 0 }
}

// BEGINNING without ε of an expression, from those of its parts (01, BEGINNING).
fn begin_set(sets: &[[u64; 2]], eps: &[bool], k: Record) -> [u64; 2]
    ensures { Small (part_by k.op k.left k.right)
        → result ≡ (begin_by (λ x. false) (pair_at sets.now eps.now) (part_by k.op k.left k.right)).set }
{
    let Record { op, left, right } = k;
    match op {
        grammar_table::TERMINAL => [0, bit(left)],
        grammar_table::SYMBOL => [bit(left), 0],
        grammar_table::SEQUENCE => {
            let first = set_at(sets, left);
            if flag_at(eps, left) {
                base_words::union(first, set_at(sets, right))
            } else {
                first
            }
        }
        grammar_table::CHOICE => base_words::union(set_at(sets, left), set_at(sets, right)),
        grammar_table::OPTION | grammar_table::STAR | grammar_table::PLUS => set_at(sets, left),
        _ => [0, 0],
    }
}

// Whether an expression has ε (01, BEGINNING).
fn begin_eps(marks: &[bool], eps: &[bool], k: Record) -> bool
    ensures { result ≡ (begin_by (marked marks.now) (pair_at [] eps.now) (part_by k.op k.left k.right)).eps }
{
    let Record { op, left, right } = k;
    match op {
        grammar_table::TERMINAL => false,
        grammar_table::SYMBOL => flag_at(marks, left),
        grammar_table::SEQUENCE => flag_at(eps, left) && flag_at(eps, right),
        grammar_table::CHOICE => flag_at(eps, left) || flag_at(eps, right),
        grammar_table::PLUS => flag_at(eps, left),
        _ => true,
    }
}

// Here and below each run of sets or marks is lent by itself: so `Begun`, `MarkedAll` and `Flowed` name them.
// BEGINNING and ε of expression e, stored.
fn begin_one(
    t: &grammar_table::Table,
    marks: &[bool],
    sets: &mut [[u64; 2]],
    eps: &mut [bool],
    e: usize,
)
    requires { (e < 1024) × (e < length sets.old) × (e < length eps.old) }
    ensures { Begun t.now marks.now e sets.old eps.old sets.new eps.new }
{
    let k = node(t, e);
    sets[e] = begin_set(sets, eps, k);
    eps[e] = begin_eps(marks, eps, k);
}

// BEGINNING and ε of every expression, parts before wholes, where `marks` says which symbols' bodies have ε.
pub fn begin_all(t: &grammar_table::Table, marks: &[bool], sets: &mut [[u64; 2]], eps: &mut [bool])
    requires { (length sets.old ≤ 1024) × (length eps.old ≡ length sets.old) }
    ensures { BegunAll t.now marks.now (length sets.old) sets.new eps.new }
{
    for e in 0..sets.len() {
        begin_one(t, marks, sets, eps, e);
    }
}

// Whether the body of symbol r has ε; a lake without one has none (02, §4).
fn body_eps(t: &grammar_table::Table, eps: &[bool], r: usize) -> bool
    requires { r < 4294967296 }
    ensures { result ≡ root_eps (pair_at [] eps.now) (root_in t.now r) }
{
    let b = records::body(t, r);
    b != 0 && flag_at(eps, b - 1)
}

// The ε of each symbol's body.
fn gather(t: &grammar_table::Table, eps: &[bool], marks: &mut [bool])
    requires { length marks.old ≤ 64 }
    ensures { marks.new
        ≡ up_to (λ r. root_eps (pair_at [] eps.now) (root_in t.now r)) (length marks.old) }
{
    for r in 0..marks.len() {
        marks[r] = body_eps(t, eps, r);
    }
}

// One round of the ε marks, "all rules at once".
fn mark_round(t: &grammar_table::Table, marks: &mut [bool], sets: &mut [[u64; 2]], eps: &mut [bool])
    requires { (length marks.old ≤ 64) × (length sets.old ≤ 1024) × (length eps.old ≡ length sets.old) }
    ensures { MarkedOnce t.now (length sets.old) marks.old marks.new }
{
    begin_all(t, marks, sets, eps);
    gather(t, eps, marks);
}

// The ε marks by symbol, from none on, as many rounds as there are symbols (01: "All are least").
pub fn mark_all(
    t: &grammar_table::Table,
    marks: &mut [bool],
    sets: &mut [[u64; 2]],
    eps: &mut [bool],
)
    requires { (length marks.old ≤ 64) × (length sets.old ≤ 1024) × (length eps.old ≡ length sets.old) }
    ensures { MarkedAll t.now (length sets.old) (length marks.old) marks.new }
{
    marks.fill(false);
    for _ in 0..marks.len() {
        mark_round(t, marks, sets, eps);
    }
}

// Edges from expressions to expressions: `count` of them, from `src` to `dst`. There is no heap, so they stand in fixed arrays with their count beside,
// and `Solved` says two lists of them.
#[derive(Drop)]
struct Edges {
    src: [usize; 2048],
    dst: [usize; 2048],
    count: usize,
}

impl Edges {
    // The edge from one expression to another of n; none where there is no such expression.
    fn add(&mut self, from: usize, to: usize, n: usize)
        requires { self.old.count < 2048 }
        ensures { Grown self.old.src self.old.dst self.old.count (kept n (edge_to from to ∷ [])) self.new.src self.new.dst self.new.count }
    {
        if to < n {
            self.src[self.count] = from;
            self.dst[self.count] = to;
            self.count += 1;
        }
    }

    // Two edges.
    fn add_two(&mut self, from: usize, x: usize, y: usize, n: usize)
        requires { self.old.count ≤ 2046 }
        ensures { Grown self.old.src self.old.dst self.old.count (kept n (edge_to from x ∷ edge_to from y ∷ []))
            self.new.src self.new.dst self.new.count }
    {
        self.add(from, x, n);
        self.add(from, y, n);
    }

    // What a sequence hands on: x gets it, and y only if x has ε (01: SUCCEED from the right, ALT from the left).
    fn hand_on(&mut self, eps: &[bool], from: usize, x: usize, y: usize)
        requires { self.old.count ≤ 2046 }
        ensures { Grown self.old.src self.old.dst self.old.count
            (kept (length eps.now) (edge_to from x ∷ when (get_or eps.now x false) (edge_to from y))) self.new.src self.new.dst self.new.count }
    {
        if flag_at(eps, x) {
            self.add_two(from, x, y, eps.len());
        } else {
            self.add(from, x, eps.len());
        }
    }

    // The edge from one expression into the body of symbol r; none where it has none.
    fn add_body(&mut self, t: &grammar_table::Table, from: usize, r: usize, n: usize)
        requires { (self.old.count < 2048) × (r < 4294967296) }
        ensures { Grown self.old.src self.old.dst self.old.count (kept n (edge_into from (root_in t.now r))) self.new.src self.new.dst self.new.count }
    {
        let b = records::body(t, r);
        if b != 0 {
            self.add(from, b - 1, n);
        }
    }

    // The edges of expression e, one of as many as there are ε marks: of SUCCEED where `back`, else of ALT. The two differ in one line, and `edges_by` says
    // both by the same Bool.
    fn hand(&mut self, t: &grammar_table::Table, eps: &[bool], back: bool, e: usize)
        requires { (self.old.count ≤ 2046) × (e < 1024) }
        ensures { Grown self.old.src self.old.dst self.old.count
            (kept (length eps.now) (edges_by back (pair_at [] eps.now) (root_in t.now) e (part_in t.now e)))
            self.new.src self.new.dst self.new.count }
    {
        let n = eps.len();
        let Record { op, left, right } = node(t, e);
        match op {
            grammar_table::SYMBOL => self.add_body(t, e, left, n),
            grammar_table::SEQUENCE => {
                if back {
                    self.hand_on(eps, e, right, left);
                } else {
                    self.hand_on(eps, e, left, right);
                }
            }
            grammar_table::CHOICE => self.add_two(e, left, right, n),
            grammar_table::OPTION | grammar_table::STAR | grammar_table::PLUS => self.add(
                e, left, n,
            ),
            _ => {}
        }
    }

    // All edges: at most two an expression.
    fn hand_all(&mut self, t: &grammar_table::Table, eps: &[bool], back: bool)
        requires { (length eps.now ≤ 1024) × (self.old.count ≡ 0) }
        ensures { (self.new.count ≤ 2048)
            × (edges self.new.src self.new.dst self.new.count
            ≡ handed t.now eps.now back (length eps.now) (length eps.now)) }
    {
        for e in 0..eps.len() {
            self.hand(t, eps, back, e);
        }
    }
}

// The same set, of which it is known that its words are words.
fn clean(s: [u64; 2]) -> [u64; 2]
    ensures { (result ≡ s) × Set2 64 64 result }
{
    [s[0], s[1]]
}

// Expression i gets the set s.
fn gift(base: &mut [[u64; 2]], i: usize, s: [u64; 2])
    ensures { Gave (gift_to i s ∷ []) base.old base.new }
{
    if i < base.len() {
        base[i] = clean(base_words::union(base[i], s));
    }
}

// What expression e gives at once for SUCCEED.
fn succeed_gift(t: &grammar_table::Table, sets: &[[u64; 2]], base: &mut [[u64; 2]], e: usize)
    requires { e < 1024 }
    ensures { Gave (succeed_gifts (pair_at sets.now []) (root_in t.now) e (part_in t.now e)) base.old base.new }
{
    let Record { op, left, right } = node(t, e);
    match op {
        grammar_table::SEQUENCE => gift(base, left, set_at(sets, right)),
        grammar_table::STAR | grammar_table::PLUS => gift(base, left, set_at(sets, left)),
        _ => {}
    }
}

// What expression e gives at once for ALT.
fn alt_gift(
    t: &grammar_table::Table,
    sets: &[[u64; 2]],
    eps: &[bool],
    succ: &[[u64; 2]],
    base: &mut [[u64; 2]],
    e: usize,
)
    requires { e < 1024 }
    ensures { Gave
        (alt_gifts (pair_at sets.now eps.now) (root_in t.now) (λ i. get_or succ.now i empty) e
        (part_in t.now e)) base.old base.new }
{
    let Record { op, left, right } = node(t, e);
    match op {
        grammar_table::CHOICE => {
            gift(base, left, set_at(sets, right));
            if flag_at(eps, right) {
                gift(base, left, set_at(succ, e));
            }
        }
        grammar_table::OPTION | grammar_table::STAR | grammar_table::PLUS => gift(
            base,
            left,
            set_at(succ, e),
        ),
        _ => {}
    }
}

fn succeed_base(t: &grammar_table::Table, sets: &[[u64; 2]], base: &mut [[u64; 2]])
    requires { length base.old ≤ 1024 }
    ensures { (base.new
        ≡ given (succeed_given t.now sets.now (length base.old)) (empties (length base.old)))
        × Fine base.new }
{
    base_rounds::clear(base);
    for e in 0..base.len() {
        succeed_gift(t, sets, base, e);
    }
}

fn alt_base(
    t: &grammar_table::Table,
    sets: &[[u64; 2]],
    eps: &[bool],
    succ: &[[u64; 2]],
    base: &mut [[u64; 2]],
)
    requires { length base.old ≤ 1024 }
    ensures { (base.new
        ≡ given (alt_given t.now sets.now eps.now succ.now (length base.old))
        (empties (length base.old))) × Fine base.new }
{
    base_rounds::clear(base);
    for e in 0..base.len() {
        alt_gift(t, sets, eps, succ, base, e);
    }
}

// Rounds along the first m edges.
fn rounds(
    src: &[usize],
    dst: &[usize],
    m: usize,
    base: &[[u64; 2]],
    cur: &mut [[u64; 2]],
    next: &mut [[u64; 2]],
) -> usize
    requires { RoundsAsk src.now dst.now m base.now (length cur.old) (length next.old) }
    ensures { Solved (take m src.now) (take m dst.now) base.now result cur.new next.new }
{
    base_rounds::solve(&src[..m], &dst[..m], base, cur, next)
}

// The same along the edges that are kept.
fn along(all: &Edges, base: &[[u64; 2]], cur: &mut [[u64; 2]], next: &mut [[u64; 2]]) -> usize
    requires { (all.now.count ≤ 2048) × Inside (length base.now) (edges all.now.src all.now.dst all.now.count)
        × (length cur.old ≡ length base.now) × (length next.old ≡ length base.now) × (length base.now ≤ 1024) × Fine base.now }
    ensures { FlowedAlong all.now.src all.now.dst all.now.count base.now result cur.new }
{
    rounds(&all.src, &all.dst, all.count, base, cur, next)
}

// Rounds along the edges of all expressions, from what each has at once: of SUCCEED where `back`, else of ALT. How many.
fn flow(
    t: &grammar_table::Table,
    eps: &[bool],
    back: bool,
    base: &[[u64; 2]],
    cur: &mut [[u64; 2]],
) -> usize
    requires { (length base.now ≤ 1024) × (length eps.now ≡ length base.now) × (length cur.old ≡ length base.now) × Fine base.now }
    ensures { FlowedFrom t.now eps.now back base.now result cur.new }
{
    let mut all = Edges {
        src: [0; 2048],
        dst: [0; 2048],
        count: 0,
    };
    all.hand_all(t, eps, back);
    let mut next = [[0, 0]; 1024];
    let n = base.len();
    along(&all, base, cur, &mut next[..n])
}

// Rounds of SUCCEED, of which nobody asks the count.
pub fn succeed_all(
    t: &grammar_table::Table,
    sets: &[[u64; 2]],
    eps: &[bool],
    base: &mut [[u64; 2]],
    cur: &mut [[u64; 2]],
) -> usize
    requires { (length base.old ≤ 1024) × (length eps.now ≡ length base.old) × (length cur.old ≡ length base.old) }
    ensures { Flowed (length base.old) (succeed_given t.now sets.now (length base.old))
        (handed t.now eps.now true (length base.old) (length base.old)) result cur.new }
{
    succeed_base(t, sets, base);
    flow(t, eps, true, base, cur)
}

// Rounds of ALT, and how many.
pub fn alt_all(
    t: &grammar_table::Table,
    sets: &[[u64; 2]],
    eps: &[bool],
    succ: &[[u64; 2]],
    base: &mut [[u64; 2]],
    cur: &mut [[u64; 2]],
) -> usize
    requires { (length base.old ≤ 1024) × (length eps.now ≡ length base.old) × (length cur.old ≡ length base.old) }
    ensures { Flowed (length base.old)
        (alt_given t.now sets.now eps.now succ.now (length base.old))
        (handed t.now eps.now false (length base.old) (length base.old)) result cur.new }
{
    alt_base(t, sets, eps, succ, base);
    flow(t, eps, false, base, cur)
}

// Whether expression e is a use of symbol r.
fn is_use(t: &[u32], e: usize, r: usize) -> bool
    requires { e < 4294967296 }
    ensures { result ≡ is_use (part_in t.now e) r }
{
    records::op(t, e) == grammar_table::SYMBOL && records::left(t, e) == r
}

// The union s, and ALT of expression e where it is a use of symbol r.
fn join_use(t: &[u32], alts: &[[u64; 2]], r: usize, e: usize, s: [u64; 2]) -> [u64; 2]
    requires { e < 4294967296 }
    ensures { result ≡ cond (is_use (part_in t.now e) r) (union_of s (get_or alts.now e empty)) s }
{
    if is_use(t, e, r) {
        base_words::union(s, set_at(alts, e))
    } else {
        s
    }
}

// The union of ALT over the uses of symbol r among the first n expressions.
fn uses_alt(t: &[u32], alts: &[[u64; 2]], r: usize, n: usize) -> [u64; 2]
    requires { n < 4294967296 }
    ensures { result ≡ uses_alt (part_in t.now) (λ i. get_or alts.now i empty) r n }
{
    let mut s = [0, 0];
    for e in 0..n {
        // in two lines: a set that is handed over and taken back in one gets no proof
        let joined = join_use(t, alts, r, e, s);
        s = joined;
    }
    s
}

// ALT of symbol r: of its body, and "without a body .. the union over the lake's occurrences" (02, §4).
pub fn alt_of(t: &[u32], alts: &[[u64; 2]], r: usize) -> [u64; 2]
    requires { r < 4294967296 }
    ensures { result ≡ alt_in t.now alts.now r }
{
    match records::body(t, r) {
        0 => uses_alt(t, alts, r, records::expressions(t)),
        b => set_at(alts, b - 1),
    }
}
