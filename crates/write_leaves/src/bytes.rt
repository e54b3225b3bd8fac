// Bytes, and characters of literals and classes.
ghost use Rattle.std.specs.Prelude.{◌≡◌, List, [], ◌∷◌, ℕ, ◌+◌, ◌≤◌, length, set, cond, leb};
ghost use Rattle.write_rules.specs.Writing.{byte_text, lit_char, class_char};
ghost use Rattle.write_leaves.specs.declared.bytes.Pen.{Pen};
ghost use Rattle.write_leaves.specs.steps.Pen.{after, moved, most};

// Lent room, and the place behind what was written. Past the room's end nothing is stored and the place goes on: a pen over no room counts.
#[derive(Drop)]
pub struct Pen<'a> {
    pub out: &'a mut [u8],
    pub at: usize,
}

// No room is as long as this: counts stop here.
const MOST: usize = 9223372036854775808;

// One byte at a place of the room, and the place behind it.
fn put(out: &mut [u8], at: usize, b: u8) -> usize
    ensures room { out.new ≡ set out.old at b }
    ensures place { result ≡ cond (leb most at) at (at + 1) }
{
    if at < out.len() {
        out[at] = b;
    }
    if at < MOST { at + 1 } else { at }
}

// Bytes from a place on, all of which have room.
fn put_run(out: &mut [u8], at: usize, bytes: &[u8])
    requires { at + length bytes.now ≤ length out.old }
    ensures { (p : Pen) → p.out.now ≡ out.old → p.at ≡ at → moved p out.new (at + length bytes.now) ≡ after p bytes.now }
{
    for i in 0..bytes.len() {
        out[at + i] = bytes[i];
    }
}

// Bytes from a place on, and the place behind them. Whether they have room is asked once for all of them, and room and place go by themselves: a byte stored
// through the pen could be the pen's own, for all that the compiler knows, so that it would read the pen again for each.
fn put_all(out: &mut [u8], at: usize, bytes: &[u8]) -> usize
    ensures { (p : Pen) → p.out.now ≡ out.old → p.at ≡ at → moved p out.new result ≡ after p bytes.now }
{
    let n = bytes.len();
    if out.len() <= at {
        return if at < MOST { MOST.min(at + n) } else { at };
    }
    if n <= out.len() - at {
        put_run(out, at, bytes);
        return at + n;
    }
    let mut place = at;
    for b in bytes {
        place = put(out, place, *b);
    }
    place
}

impl<'a> Pen<'a> {
    // A pen at the front of the room.
    pub fn new(out: &'a mut [u8]) -> Pen<'a>
        ensures { (result.out ≡ out.entry) × (result.at ≡ 0) }
    {
        Pen { out, at: 0 }
    }

    // One byte.
    #[tactic(auto, unfolding(crate::specs::steps::Pen::after))]
    pub fn emit(&mut self, b: u8)
        ensures { self.new ≡ after self.old (b ∷ []) }
    {
        self.at = put(self.out, self.at, b);
    }

    // Bytes as they are.
    pub fn emit_all(&mut self, bytes: &[u8])
        ensures { self.new ≡ after self.old bytes.now }
    {
        self.at = put_all(self.out, self.at, bytes);
    }

    // A byte that has no meaning of its own where it stands.
    pub fn byte_text(&mut self, c: u8)
        ensures { self.new ≡ after self.old (byte_text c) }
    {
        match c {
            b'\\' => self.emit_all(b"\\\\"),
            b'\n' => self.emit_all(b"\\n"),
            b'\r' => self.emit_all(b"\\r"),
            b'\t' => self.emit_all(b"\\t"),
            32..=126 | 192.. => self.emit(c),
            _ => self.emit_all(&[b'\\', b'0' + c / 64, b'0' + c / 8 % 8, b'0' + c % 8]),
        }
    }

    // A character of a literal.
    pub fn lit_char(&mut self, c: u8)
        ensures { self.new ≡ after self.old (lit_char c) }
    {
        match c {
            b'\'' => self.emit_all(b"\\'"),
            _ => self.byte_text(c),
        }
    }

    // A character of a class.
    pub fn class_char(&mut self, c: u8)
        ensures { self.new ≡ after self.old (class_char c) }
    {
        match c {
            b'[' => self.emit_all(b"\\["),
            b']' => self.emit_all(b"\\]"),
            b'-' => self.emit_all(b"\\055"),
            b'^' => self.emit_all(b"\\136"),
            _ => self.byte_text(c),
        }
    }
}
