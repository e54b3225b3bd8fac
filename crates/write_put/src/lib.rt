// A text or a symbol's name put into lent room: all of it where it fits, else refusal 13 with the bytes needed and the room as it was (01, Writing).
#![tactic(auto)]

ghost use Rattle.std.specs.Prelude.{◌<◌, ◌≡◌, true, false, MatchResult};
ghost use Rattle.write_rules.specs.Writing.{symbol_text};
ghost use Rattle.write_leaves.specs.steps.Printed.{called};
ghost use Rattle.write_text.specs.steps.Texts.{text_of};
ghost use Rattle.write_put.specs.steps.Puts.{not_written, answer_by, Put};

use grammar_table::Table;
use prepare::Verdict;

// How many bytes were written. As every answer of a call: a number beside a verdict (01).
#[derive(Clone, Copy)]
pub struct Written {
    pub bytes: usize,
    pub verdict: Verdict,
}

// A refusal, handed on.
pub fn not_written(v: Verdict) -> Written
    ensures { result ≡ not_written v }
{
    Written {
        bytes: 0,
        verdict: v,
    }
}

// What putting a text into room answers, by how many bytes it has or needs.
pub fn answer(put: Result<usize, usize>) -> Written
    ensures { MatchResult put (λ n. result ≡ answer_by true n) (λ n. result ≡ answer_by false n) }
{
    match put {
        Ok(bytes) => Written {
            bytes,
            verdict: Verdict::Accepted,
        },
        Err(place) => not_written(Verdict::Refused { number: 13, place }),
    }
}

// The text of a table at the front of the room; where it does not fit the room stays as it was, and the answer says how many bytes are needed.
pub fn put_text(t: &Table, out: &mut [u8], plain: bool) -> Written
    ensures { Put (text_of plain t.now) out.old out.new result }
{
    answer(write_text::texts::write(t, out, plain))
}

// A symbol's name at the front of the room, counted before a byte is written.
pub fn put_name(t: &Table, out: &mut [u8], r: usize) -> Written
    requires { r < 64 }
    ensures { Put (symbol_text (called false t.now r)) out.old out.new result }
{
    answer(write_text::texts::put(out, |pen| pen.symbol(t, false, r)))
}
