// Refusals 4 and 5 (01, Refusal numbers): the names of the left sides in order, a range of them at a time, each range with one more pass over the text. A
// name of a range is found by halving; a left side that is not found there would make the functions give up, and the walks of `read_walks` would answer.
ghost use Rattle.std.specs.Prelude.{◌≡◌, Bool, false, [], ◌≤◌, ◌<◌, length, MatchOption};
ghost use Rattle.read_tokens.specs.declared.Kind.TheVariants.{End};
ghost use Rattle.read_tokens.specs.Tokens.{token_at, lexemes};
ghost use Rattle.read_tokens.specs.steps.Code.{coded};
ghost use Rattle.read_syntax.specs.Reading.{second};
ghost use Rattle.read_walks.specs.steps.Names.{placed};
ghost use Rattle.read_order.specs.steps.Order.{symbol_in, within, InText, Bounded, Fits};
ghost use Rattle.read_names.specs.steps.Lefts.{marked_name, Finds, Ranged, Entered, MetAll, UsedAll, place_by};
ghost use Rattle.read_names.specs.steps.Lefts.{Swept4, Swept5, Whole, Answer, second4, Upto, Told};
ghost use Rattle.read_names.specs.laws.Ranges.{Ranged-prop};

use base_words::word;
use grammar_table::renew;
use read_order::{Range, Room, find, gather, in_range, pack, same_name};
use read_tokens::kinds::laid_out;
use read_tokens::{Kind, Mode, Token, token_at, token_by};
use read_walks::{is_left, name_start, reserved_name, second_walked, unruled_walked};

// Which names of a range have been passed: beside the names, which are words of a lent table, since there is no heap.
pub type Marks = [bool; read_order::ROOM];

// Whether a token is refused by 4, and whether it may be the use of a name of the range.
#[derive(Clone, Copy)]
pub struct Meeting {
    pub bad: bool,
    pub used: bool,
}

// How far a walk for refusal 4 came, and whether it may have passed a use of a name of the range.
#[derive(Clone, Copy)]
pub struct Passed {
    pub place: usize,
    pub used: bool,
}

// More ranges than there can be.
const RANGES: usize = 64;

// A range of a text's names: each left side in it is found among them.
#[derive(Clone, Copy)]
struct Names<'a> {
    mode: Mode,
    text: &'a [u8],
    names: &'a [u32],
    range: Range,
    ghost short: { length text.now < 4294967296 },
    ghost ranged: { Ranged text.now names.now range.low range.high } by { Ranged-prop text.now names.now range.low range.high },
}

impl Names<'_> {
    // Marks a name: whether it was marked, if it is found.
    fn enter(&self, v: usize, marks: &mut Marks) -> Option<bool>
        requires { InText self.now.text.now v }
        ensures { let s = self.now in MatchOption result (Unit {0}) (λ r. Entered s.text.now s.names.now (symbol_in s.text.now v) r marks.old marks.new) }
    {
        let j = find(self.text, self.names, v);
        if !same_name(self.text, v, word(self.names, j)) {
            return None;
        }
        let marked = marks[j];
        marks[j] = true;
        Some(marked)
    }

    // Whether a name is marked.
    fn known(&self, v: usize, marks: &Marks) -> bool
        requires { InText self.now.text.now v }
        ensures { let s = self.now in result ≡ marked_name s.text.now s.names.now (symbol_in s.text.now v) marks.now }
    {
        let j = find(self.text, self.names, v);
        same_name(self.text, v, word(self.names, j)) && marks[j]
    }

    // Whether a name is one of the range.
    fn has(&self, v: usize) -> bool
        requires { InText self.now.text.now v }
        ensures { let s = self.now in result ≡ within s.text.now s.range.low s.range.high (symbol_in s.text.now v) }
    {
        in_range(self.text, self.range.low, self.range.high, v)
    }

    // ── refusal 4 ──
    // The token t at `at`, if it is a symbol of the range: whether it is a second left side or has a reserved name. Most names are of other ranges, so that is
    // asked first. None where a name is not found.
    fn meet(&self, at: usize, t: Token, marks: &mut Marks) -> Option<Meeting>
        requires { let s = self.now in (t ≡ coded (token_at s.mode s.text.now at)) × (t.kind ≡ End → ⊥) }
        ensures { let s = self.now in let c = s.range in MatchOption result (Unit {0})
            (λ r. MetAll s.mode s.text.now at s.names.now c.low c.high r.bad marks.old marks.new
            × (r.used ≡ false → UsedAll s.mode s.text.now at c.low c.high false)) }
    {
        let Token {
            kind,
            start,
            next,
            size,
        } = t;
        if !kind.is_symbol() {
            return Some(Meeting {
                bad: false,
                used: false,
            });
        }
        let from = name_start(kind, start);
        let v = pack(self.text, kind, from, size)?;
        if !self.has(v) {
            return Some(Meeting {
                bad: false,
                used: false,
            });
        }
        if reserved_name(self.mode, self.text, from, size) {
            return Some(Meeting {
                bad: true,
                used: true,
            });
        }
        if !is_left(self.mode, self.text, next) {
            return Some(Meeting {
                bad: false,
                used: true,
            });
        }
        let bad = self.enter(v, marks)?;
        Some(Meeting { bad, used: false })
    }

    // The place before the first symbol of the range that refusal 4 is for, or the limit. Where no use of the range's names was passed, there is no refusal 5
    // in it either: a text of left sides alone needs no walk for that. None where a name is not found: a slower way has to be gone.
    fn sweep(&self, limit: usize, marks: &mut Marks) -> Option<Passed>
        requires { let s = self.now in (limit ≤ length s.text.now) × Finds s.text.now s.names.now s.range.low s.range.high [] marks.old }
        ensures { let s = self.now in let c = s.range in MatchOption result (Unit {0})
            (λ r. Answer s.mode s.text.now s.names.now c.low c.high limit r.place marks.new
            × (r.used ≡ false → Swept5 s.mode s.text.now c.low c.high limit limit)) }
    {
        let table = laid_out();
        let mut used = false;
        let mut at = 0;
        while at < limit {
            let t = token_by(self.mode, self.text, at, &table);
            if t.kind == Kind::End {
                return Some(Passed { place: limit, used });
            }
            let r = self.meet(at, t, marks)?;
            if r.bad {
                return Some(Passed {
                    place: at,
                    used: true,
                });
            }
            used |= r.used;
            at = t.next;
        }
        Some(Passed { place: limit, used })
    }

    fn second_in(&self, limit: usize) -> Option<usize>
        requires { limit ≤ length self.now.text.now }
        ensures { let s = self.now in MatchOption result (Unit {0}) (Swept4 s.mode s.text.now s.range.low s.range.high limit) }
    {
        let mut marks: Marks = [false; read_order::ROOM];
        let r = self.sweep(limit, &mut marks)?;
        Some(r.place)
    }

    // ── refusal 5 ──
    // The token t at `at`, if it is a symbol of the range: whether it is the use of a nonterminal without a rule.
    fn lacking(&self, at: usize, t: Token, marks: &Marks) -> Option<bool>
        requires { let s = self.now in (t ≡ coded (token_at s.mode s.text.now at)) × (t.kind ≡ End → ⊥)
            × Whole s.mode s.text.now s.names.now s.range.low s.range.high marks.now }
        ensures { let s = self.now in MatchOption result (Unit {0}) (UsedAll s.mode s.text.now at s.range.low s.range.high) }
    {
        let Token {
            kind,
            start,
            next,
            size,
        } = t;
        if kind != Kind::Name {
            return Some(false);
        }
        let v = pack(self.text, kind, start, size)?;
        if !self.has(v) || is_left(self.mode, self.text, next) {
            return Some(false);
        }
        Some(!self.known(v, marks))
    }

    fn uses(&self, limit: usize, marks: &Marks) -> Option<usize>
        requires { let s = self.now in (limit ≤ length s.text.now) × Whole s.mode s.text.now s.names.now s.range.low s.range.high marks.now }
        ensures { let s = self.now in MatchOption result (Unit {0}) (Swept5 s.mode s.text.now s.range.low s.range.high limit) }
    {
        let table = laid_out();
        let mut at = 0;
        while at < limit {
            let t = token_by(self.mode, self.text, at, &table);
            if t.kind == Kind::End {
                return Some(limit);
            }
            let bad = self.lacking(at, t, marks)?;
            if bad {
                return Some(at);
            }
            at = t.next;
        }
        Some(limit)
    }

    // None also where there is refusal 4: there is none in the range if this answers.
    fn unruled_in(&self, limit: usize) -> Option<usize>
        requires { limit ≤ length self.now.text.now }
        ensures { let s = self.now in let c = s.range in MatchOption result (Unit {0}) (λ r. Swept5 s.mode s.text.now c.low c.high limit r
            × Swept4 s.mode s.text.now c.low c.high (length s.text.now) (length s.text.now)) }
    {
        let mut marks: Marks = [false; read_order::ROOM];
        let end = self.text.len();
        let r = self.sweep(end, &mut marks)?;
        if r.place != end {
            None
        } else if r.used {
            self.uses(limit, &marks)
        } else {
            Some(limit)
        }
    }
}

// ── all ranges ──
// The place of the token at `at`; none at the text's end.
fn place_of(mode: Mode, text: &[u8], at: usize) -> Option<usize>
    ensures { result ≡ place_by (token_at mode text.now at).is (token_at mode text.now at).start }
{
    let t = token_at(mode, text, at);
    if t.kind == Kind::End {
        None
    } else {
        Some(t.start)
    }
}

// Refusal 4 where no name up to `from` is refused so: the place of the leftmost second left side or reserved name.
fn second_from(mode: Mode, text: &[u8], from: Option<usize>, a: &mut Room) -> Option<usize>
    requires { (length text.now < 4294967296) × Fits text.now a.old × Bounded text.now from
        × Upto mode text.now (second4 mode text.now) from (length text.now) }
    ensures { result ≡ placed (second mode [] (lexemes mode text.now)) }
{
    let mut low = from;
    let mut limit = text.len();
    for _ in 0..RANGES {
        let range = gather(mode, text, low, a);
        let names = Names {
            mode,
            text,
            names: &a[..range.count],
            range,
        };
        match names.second_in(limit) {
            Some(place) => limit = place,
            None => return second_walked(mode, text),
        }
        if range.high.is_none() {
            return place_of(mode, text, limit);
        }
        low = range.high;
    }
    second_walked(mode, text)
}

// The places of refusals 4 and 5. That of 5 is told only where there is no 4.
#[derive(Clone, Copy)]
pub struct Places {
    pub second: Option<usize>,
    pub unruled: Option<usize>,
}

// Both where that of 4 is known and the names are not in order.
fn walked(mode: Mode, text: &[u8], p: Option<usize>) -> Places
    requires { (length text.now < 4294967296) × (p ≡ placed (second mode [] (lexemes mode text.now))) }
    ensures { Told mode text.now result }
{
    let unruled = match p {
        Some(_) => None,
        None => unruled_walked(mode, text),
    };
    Places { second: p, unruled }
}

// One order of the names serves both refusals. Where a range shows that there is refusal 4, the leftmost place is sought in this range and those behind it.
// The room's words may be any, before and after.
pub fn refused(mode: Mode, text: &[u8], a: &mut Room) -> Places
    requires { length text.now < 4294967296 }
    ensures { Told mode text.now result }
{
    renew(a);
    let mut low = None;
    let mut limit = text.len();
    for _ in 0..RANGES {
        let range = gather(mode, text, low, a);
        let names = Names {
            mode,
            text,
            names: &a[..range.count],
            range,
        };
        match names.unruled_in(limit) {
            Some(place) => limit = place,
            None => {
                let p = second_from(mode, text, low, a);
                return walked(mode, text, p);
            }
        }
        if range.high.is_none() {
            return Places {
                second: None,
                unruled: place_of(mode, text, limit),
            };
        }
        low = range.high;
    }
    let p = second_walked(mode, text);
    walked(mode, text, p)
}
