#![tactic(auto)]

ghost use Rattle.std.specs.Prelude.{◌≡◌, ◌<◌, get_or, set};
ghost use Rattle.base_words.specs.Set.{union_of, member_of, with_of, empty as none};
ghost use Rattle.base_words.specs.steps.Decides.{Decides};

// A set of symbols and terminals (01: "a set is two 64-bit words handed over whole"): word 0 the symbols, word 1 the terminals, bit = number.
// As one number k, symbol r is r and terminal t is 64 + t.
pub fn union(a: [u64; 2], b: [u64; 2]) -> [u64; 2]
    ensures { result ≡ union_of a b }
{
    [a[0] | b[0], a[1] | b[1]]
}

pub fn member(s: [u64; 2], k: usize) -> bool
    requires { k < 128 }
    ensures { result ≡ member_of s k }
{
    (s[k / 64] >> (k % 64)) & 1 == 1
}

pub fn with(s: [u64; 2], k: usize) -> [u64; 2]
    requires { k < 128 }
    ensures { result ≡ with_of s k }
{
    let mut more = s;
    more[k / 64] |= 1 << (k % 64);
    more
}

pub fn same(a: [u64; 2], b: [u64; 2]) -> bool
    ensures { Decides (a ≡ b) result }
{
    a == b
}

pub fn empty() -> [u64; 2]
    ensures { result ≡ none }
{
    [0, 0]
}

// The word at i of lent words; 0 past the end.
pub fn word(a: &[u32], i: usize) -> usize
    ensures { (result ≡ get_or a.now i 0) × (result < 4294967296) }
{
    a.get(i).map_or(0, |x| *x as usize)
}

// Stores v at i of lent words; past the end nothing.
pub fn put(a: &mut [u32], i: usize, v: usize)
    requires { v < 4294967296 }
    ensures { a.new ≡ set a.old i v }
{
    if i < a.len() {
        a[i] = v as u32;
    }
}
