// What a public call answers, said as a line of words and numbers (crate `replay` has the lines).
#![tactic(auto)]

use gurkenmond::{LakeWay, NodeStep, Outcome, Parsed, Sets, Verdict, Way, Written};

// What is said of an accepted question, or the refusal.
pub fn verdict<F: FnOnce() + Drop>(v: Verdict, accepted: F)
    requires { F.IsAlwaysCallable accepted }
{
    match v {
        Verdict::Accepted => accepted(),
        Verdict::Refused { number, place } => console::refusal(number, place),
    }
}

// A 64-bit number behind a word.
fn number(n: u64) {
    io::write_all(1, b" ");
    io::print_decimal(1, n);
}

// The numbers of the bits of a word.
pub fn bits(w: u64) {
    for i in 0..64 {
        if (w >> i) & 1 == 1 {
            number(i);
        }
    }
}

// Every lent word, in order.
pub fn words(label: &[u8], ws: &[u32]) {
    io::write_all(1, label);
    for w in ws {
        number(u64::from(*w));
    }
}

// The first n bytes in hexadecimal.
pub fn bytes(out: &[u8], n: usize) {
    io::write_all(1, b"text ");
    for b in out.iter().take(n) {
        io::print_hex(1, u64::from(*b), 2);
    }
}

// A part of an input, which may be empty.
pub fn part(given: &[u8]) {
    if given.is_empty() {
        io::write_all(1, b"text -");
    } else {
        bytes(given, given.len());
    }
}

pub fn sets(s: Sets) {
    let Sets {
        begin,
        succeed,
        alt,
        eps,
    } = s;
    for set in [begin, succeed, alt] {
        number(set[0]);
        number(set[1]);
    }
    number(u64::from(eps));
}

pub fn outcome(o: Outcome) {
    match o {
        Outcome::Matched(taken) => {
            io::write_all(1, b"match");
            console::number(taken);
        }
        Outcome::NoMatch => {
            io::write_all(1, b"none");
        }
        Outcome::Refused { number, place } => console::refusal(number, place),
    }
}

// "0 not, 1 by its rule, 2 by water, 3 by one skipped byte" (01). `library_numbers::of_way` has the same for C, a layer that no program knows.
fn way(w: Way) {
    io::write_all(1, b"value");
    number(match w {
        Way::Not => 0,
        Way::ByRule => 1,
        Way::ByWater => 2,
        Way::BySkip => 3,
    });
}

pub fn lake(r: LakeWay) {
    verdict(r.verdict, || way(r.way));
}

pub fn written(w: Written, out: &[u8]) {
    verdict(w.verdict, || bytes(out, w.bytes));
}

pub fn parsed(r: Parsed) {
    verdict(r.verdict, || {
        io::write_all(1, b"nodes");
        console::number(r.nodes);
    });
}

// A node that was handed out: its four numbers.
pub fn step(s: NodeStep) {
    let node = s.node;
    for n in [node.symbol, node.start, node.end, node.depth] {
        console::number(n);
    }
}
