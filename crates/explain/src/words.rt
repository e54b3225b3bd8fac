// The sentences: what stopped the reading of a lake grammar, one for each refusal number (01, Refusal numbers).
use explain_shown::say;
use explain_syntax::say_token;
use read_tokens::Kind;

fn say_over(text: &[u8], at: usize) {
    match explain_walks::token_at(text, at).kind {
        Kind::Literal => say(b"this literal has more than 64 bytes"),
        Kind::Opens => say(b"parentheses are nested more than 32 deep here"),
        _ => say(b"this name has more than 32 bytes"),
    }
}

fn say_doubled(text: &[u8], at: usize) {
    say_token(text, at);
    if explain_walks::is_reserved(text, explain_walks::token_at(text, at)) {
        say(b" is reserved: no name of a grammar with lakes begins with `lake__`");
    } else {
        say(b" has a rule already");
    }
}

fn say_ruleless(text: &[u8], at: usize) {
    say_token(text, at);
    say(b" has no rule");
}

fn say_too_many(place: usize) {
    say(b"the grammar has more than ");
    match place {
        1 => say(b"64 symbols (rules, and lakes without a rule)"),
        2 => say(b"64 terminals (literals, classes and `.`)"),
        _ => say(b"512 expressions (each part and each operator is one)"),
    }
}

fn say_loop(text: &[u8], at: usize) {
    say_token(text, at);
    say(b" can come back to itself before a byte is taken");
}

// The sentence for a refusal by `read`; `at` is the position that it speaks of.
pub fn sentence(text: &[u8], number: usize, place: usize, at: usize) {
    match number {
        1 => say(b"a grammar may have 16,384 bytes, and this is the first one behind them"),
        2 => explain_syntax::say_offending(text, at),
        3 => say_over(text, at),
        4 => say_doubled(text, at),
        5 => say_ruleless(text, at),
        6 => say_too_many(place),
        7 => say(b"written as plain PEG the grammar has more than 1,024 expressions"),
        8 => say_loop(text, at),
        _ => console::refusal(number, place),
    }
}
