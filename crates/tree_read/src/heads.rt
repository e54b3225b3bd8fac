// One node's text: up to its children, and what comes behind it.
ghost use Rattle.std.specs.Prelude.{◌≤◌, ◌<◌, ◌≡◌, ℕ, false, length, IfSome, MatchOption};
ghost use Rattle.write_leaves.specs.steps.Printed.{called};
ghost use Rattle.tree_json.specs.Reading.{closes_at, head_at};
ghost use Rattle.tree_read.specs.steps.Walks.{Headed, Onward};

use crate::bytes;
use crate::leaves::{Reading, eat_chars, find_name, number};

// A node up to its children, and the place behind.
#[derive(Clone, Copy)]
pub struct Head {
    pub symbol: usize,
    pub start: usize,
    pub end: usize,
    pub place: usize,
}

pub fn read_head(t: &[u32], symbols: usize, input: &[u8], json: &[u8], at: usize) -> Option<Head>
    requires { symbols ≤ 64 }
    ensures head { MatchOption result
        ((d : ℕ) → length json.now < (head_at (called false t.now) symbols input.now json.now d at).place)
        (λ h. Headed (called false t.now) symbols input.now json.now at h.symbol h.start h.end h.place) }
    ensures inside { IfSome result (λ h. h.place ≤ length json.now) }
{
    let a = bytes::eat(json, at, b"{\"name\":\"")?;
    let name = find_name(t, symbols, json, a)?;
    let b = bytes::eat(json, name.place, b",\"start\":")?;
    let start = number(json, b)?;
    let c = bytes::eat(json, start.place, b",\"end\":")?;
    let end = number(json, c)?;
    let d = bytes::eat(json, end.place, b",\"text\":\"")?;
    let e = eat_chars(json, d, input, start.value, end.value)?;
    let place = bytes::eat(json, e, b"\",\"children\":[")?;
    Some(Head {
        symbol: name.value,
        start: start.value,
        end: end.value,
        place,
    })
}

// Closing pairs, c at most: how many.
fn closings(json: &[u8], at: usize, c: usize) -> Reading
    ensures { (result.value ≡ (closes_at c json.now at).value) × (result.place ≡ (closes_at c json.now at).place) × (result.value ≤ c) }
{
    let mut place = at;
    for value in 0..c {
        match bytes::eat(json, place, b"]}") {
            Some(a) => place = a,
            None => return Reading { value, place },
        }
    }
    Reading { value: c, place }
}

// How it goes on behind a node: it was the last, or the next one has a depth and a place.
#[derive(Clone, Copy)]
pub enum Then {
    Last,
    More { depth: usize, place: usize },
}

// Behind the head of a node of depth d: its first child, or closing pairs and a sibling of the last that is closed, or the end.
pub fn go_on(json: &[u8], at: usize, d: usize) -> Option<Then>
    requires { d ≤ 256 }
    ensures { Onward json.now d at result }
{
    let deeper = d + 1;
    let Reading { value, place } = closings(json, at, deeper);
    if value == deeper {
        if place == json.len() {
            return Some(Then::Last);
        }
        return None;
    }
    if value == 0 {
        return Some(Then::More {
            depth: deeper,
            place,
        });
    }
    let place = bytes::eat(json, place, b",")?;
    Some(Then::More {
        depth: deeper - value,
        place,
    })
}
