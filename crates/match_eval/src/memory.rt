// Rounds that are remembered: a repeat at a place ends with what was known at a later one, so that a run of single bytes takes time linear in the text
// (01, Meaning of a match). Repeated parts with the same tree share what is remembered: each of them has a key, the same for all. The memory is one run of
// words: how many places of each key it keeps, how many keys there are, the key of each part (0: none), a part of each key, which bytes have been seen, what
// bytes decide, then entries. An entry is about a run of places from which rounds end at one place. Each key has one entry for its newest run, so that a run
// of single bytes needs no other; some for places of their own, where a round of more than a byte may begin; and as many for blocks of places that lie in one
// run, so that runs of any text are found again when its nodes are listed.
ghost use Rattle.std.specs.Prelude.{◌+◌, ◌*◌, ◌^◌, ◌<◌, ◌≤◌, ◌≡◌, true, IfSome, get_or, length, set};
ghost use Rattle.std.specs.Int.Bits.{bit_or};
ghost use Rattle.base_words.specs.Set.{bit};
ghost use Rattle.match_eval.specs.steps.Firsts.{said_of};
ghost use Rattle.match_eval.specs.steps.Memory.{entries_at, Key, About, first_of, past_of, end_of, Told, Spoken, Stored};

use base_words::{put, word};

pub const PLACES: usize = 0;

pub const COUNT: usize = 1;

pub const KEYS_AT: usize = 2;

// `.` and 1,024 expressions.
pub const PARTS: usize = 1025;

pub const PARTS_AT: usize = 1027;

pub const SEEN_AT: usize = 2052;

// Two bits for each part and byte, 16 words a part, 16 bytes a word: 0 says nothing, else 1 + what the part takes where the byte stands.
pub const SAID_AT: usize = 2309;

pub const PART_WORDS: usize = 16;

pub const WORD_BYTES: usize = 16;

// The bytes: of the text's end nothing is said.
pub const BYTES: usize = 256;

pub const ENTRIES_AT: usize = 18709;

// What an entry is about, key · 65,536 + the first place; the place past the last; where rounds from all of them end.
pub const ENTRY_WORDS: usize = 3;

pub const PAST: usize = 1;

pub const ENDS: usize = 2;

pub const TEXT: usize = 65536;

// Entries for places of their own: no key has more. Behind them as many for blocks of places, then one for the newest run of each key.
pub const ENTRIES: usize = 2048;

pub const BLOCKS: usize = 2048;

pub const RUNS: usize = 4096;

pub const WORDS: usize = 34075;

pub type Memory = [u32; WORDS];

// The key of part x, if it has one.
pub fn key(mem: &[u32], x: usize) -> Option<usize>
    ensures { IfSome result (λ k. Key mem.now x k × (k ≤ 1025)) }
{
    if PARTS <= x {
        return None;
    }
    let k = word(mem, KEYS_AT + x);
    if 0 < k && k <= PARTS { Some(k) } else { None }
}

// The two bits from k on of the word at i.
fn bits_at(mem: &[u32], i: usize, k: usize) -> usize
    requires { k < 31 }
    ensures { result ≡ bit (get_or mem.now i 0) k + 2 * bit (get_or mem.now i 0) (k + 1) }
{
    (word(mem, i) >> k) & 3
}

// What is said of part x where byte b stands: 0 nothing, else 1 + what it takes there, the two bits as they stand (01, Meaning of a match).
pub fn said(mem: &[u32], x: usize, b: usize) -> usize
    ensures { result ≡ said_of mem.now b x }
{
    if BYTES <= b || PARTS <= x {
        return 0;
    }
    bits_at(
        mem,
        SAID_AT + PART_WORDS * x + b / WORD_BYTES,
        2 * (b % WORD_BYTES),
    )
}

// Sets bit k of the word at i if d is 1.
fn mark(mem: &mut [u32], i: usize, k: usize, d: usize)
    requires { (k < 32) × (d < 2) }
    ensures { mem.new ≡ set mem.old i (bit_or (get_or mem.old i 0) (d * 2 ^ k)) }
{
    if d != 0 && i < mem.len() {
        mem[i] |= 1 << k;
    }
}

// Says of part x that it takes v where byte b stands, if nothing is said of it yet.
pub fn say(mem: &mut [u32], x: usize, b: usize, v: usize)
    requires { (x < 1025) × (b < 256) × (v < 3) × (18709 ≤ length mem.old) }
    ensures { Spoken b x v mem.old mem.new }
{
    if said(mem, x, b) == 0 {
        let i = SAID_AT + PART_WORDS * x + b / WORD_BYTES;
        let k = 2 * (b % WORD_BYTES);
        mark(mem, i, k, (v + 1) % 2);
        mark(mem, i, k + 1, (v + 1) / 2);
    }
}

// The number of the entry for key k at place q: some places of each key, the nearest ones. Any answer would do, for an entry says what it is about.
pub fn slot(mem: &[u32], k: usize, q: usize) -> usize
    requires { (0 < k) × (k ≤ 1025) }
    ensures { result < 4294967296 }
{
    let w = word(mem, PLACES);
    if w == 0 || ENTRIES < w {
        return 0;
    }
    (k - 1) * w + (q & (w - 1))
}

// The number of the entry for the block of place q: a text has as many blocks as a key has places. Any answer would do here too.
pub fn block(mem: &[u32], k: usize, q: usize) -> usize
    requires { (0 < k) × (k ≤ 1025) × (q ≤ 65535) }
    ensures { result < 4294967296 }
{
    let w = word(mem, PLACES);
    if ENTRIES < w {
        return 0;
    }
    BLOCKS + (k - 1) * w + q * w / TEXT
}

// Where entry i stands.
pub fn entry_at(i: usize) -> usize
    requires { i < 4294967296 }
    ensures { result ≡ entries_at + 3 * i }
{
    ENTRIES_AT + ENTRY_WORDS * i
}

// What an entry says: key · 65,536 + the first place that it is about, the place past the last, where rounds from all of them end.
#[derive(Clone, Copy)]
pub struct Entry {
    pub first: usize,
    pub past: usize,
    pub end: usize,
}

impl Entry {
    // What entry i says.
    pub fn read(mem: &Memory, i: usize) -> Entry
        requires { i < 4294967296 }
        ensures says { (result.first ≡ first_of mem.now i) × (result.past ≡ past_of mem.now i) × (result.end ≡ end_of mem.now i) }
        ensures words { (result.first < 4294967296) × (result.past < 4294967296) × (result.end < 4294967296) }
    {
        let j = entry_at(i);
        Entry {
            first: word(mem, j),
            past: word(mem, j + PAST),
            end: word(mem, j + ENDS),
        }
    }

    // Entry i says this from now on, if the memory has it.
    pub fn write(self, mem: &mut Memory, i: usize)
        requires { (i < 4294967296) × (self.first < 4294967296) × (self.past < 4294967296) × (self.end < 4294967296) }
        ensures { Stored i self.first self.past self.end mem.old mem.new }
    {
        let j = entry_at(i);
        if j + ENDS < mem.len() {
            put(mem, j, self.first);
            put(mem, j + PAST, self.past);
            put(mem, j + ENDS, self.end);
        }
    }
}

// The bytes that rounds of key k take from q on, if entry i is about them.
pub fn says(mem: &Memory, i: usize, k: usize, q: usize) -> Option<usize>
    requires { (i < 4294967296) × (k ≤ 1025) × (q ≤ 65535) }
    ensures { IfSome result (λ c. About mem.now i k q × (end_of mem.now i ≡ q + c)) }
{
    let entry = Entry::read(mem, i);
    if k * TEXT <= entry.first && entry.first <= k * TEXT + q && q < entry.past && q <= entry.end {
        Some(entry.end - q)
    } else {
        None
    }
}

// Whether the run of entry i begins at q, and is of key k.
pub fn begins(mem: &Memory, i: usize, k: usize, q: usize) -> bool
    requires { (i < 4294967296) × (k ≤ 1025) × (q ≤ 65535) }
    ensures { result ≡ true → About mem.now i k q }
{
    let entry = Entry::read(mem, i);
    entry.first == k * TEXT + q && q < entry.past
}

// The bytes that rounds of part x take from q on, if the newest run of its key is about them.
pub fn running(mem: &Memory, x: usize, q: usize) -> Option<usize>
    requires { q ≤ 65535 }
    ensures { IfSome result (λ c. Told mem.now x q c) }
{
    let k = key(mem, x)?;
    says(mem, RUNS + k, k, q)
}

// The bytes that rounds of part x take from q on, if an entry is about them. What lies before a key's newest run is not known yet.
pub fn known(mem: &Memory, x: usize, q: usize) -> Option<usize>
    requires { q ≤ 65535 }
    ensures { IfSome result (λ c. Told mem.now x q c) }
{
    let k = key(mem, x)?;
    let run = RUNS + k;
    if k * TEXT + q < Entry::read(mem, run).first {
        return None;
    }
    if let Some(c) = says(mem, run, k, q) {
        return Some(c);
    }
    let own = slot(mem, k, q);
    if begins(mem, own, k, q) {
        return says(mem, own, k, q);
    }
    says(mem, block(mem, k, q), k, q)
}
