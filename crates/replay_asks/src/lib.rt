// What a line asks: its fields read, and the call of `replay_answers` that answers it. The head of `replay/src/main.rt` has the lines.
#![tactic(auto)]

use gurkenmond::Mode;
use replay_lines::{Fields, NUMBER_MOST, buffers, decode};

#[derive(Clone, Copy)]
enum Question {
    OnGrammar(OnGrammar),
    OnInput(OnInput),
    Where,
    Handed,
    Sound,
    Text,
}

// The questions on a grammar alone.
#[derive(Clone, Copy)]
enum OnGrammar {
    Read,
    Sets,
    Skip,
    Own,
    Plain,
    Name,
}

// The questions on a grammar and an input.
#[derive(Clone, Copy)]
enum OnInput {
    Match,
    Lake,
    Json,
    Unjson,
    Summary,
}

const QUESTIONS: [(&[u8], Question); 15] = [
    (b"read ", Question::OnGrammar(OnGrammar::Read)),
    (b"sets ", Question::OnGrammar(OnGrammar::Sets)),
    (b"skip ", Question::OnGrammar(OnGrammar::Skip)),
    (b"own ", Question::OnGrammar(OnGrammar::Own)),
    (b"plain ", Question::OnGrammar(OnGrammar::Plain)),
    (b"name ", Question::OnGrammar(OnGrammar::Name)),
    (b"match ", Question::OnInput(OnInput::Match)),
    (b"lake ", Question::OnInput(OnInput::Lake)),
    (b"json ", Question::OnInput(OnInput::Json)),
    (b"unjson ", Question::OnInput(OnInput::Unjson)),
    (b"summary ", Question::OnInput(OnInput::Summary)),
    (b"where ", Question::Where),
    (b"handed ", Question::Handed),
    (b"sound ", Question::Sound),
    (b"text ", Question::Text),
];

const MODES: [(&[u8], Mode); 2] = [(b"lake ", Mode::Lake), (b"plain ", Mode::Plain)];

// What the word that comes next stands for; the word is taken.
fn named<T: Copy>(names: &[(&[u8], T)], fields: &mut Fields) -> Option<T> {
    for (word, value) in names {
        if fields.word(word) {
            return Some(*value);
        }
    }
    None
}

fn ask_sets(mode: Mode, text: &[u8], fields: &mut Fields) -> Option<()> {
    let e = fields.number(NUMBER_MOST)?;
    replay_answers::sets(mode, text, e);
    Some(())
}

// The room's field comes next; what is written into so much room is answered.
fn ask_text<F: FnOnce(&mut [u8]) + Drop>(fields: &mut Fields, write: F) -> Option<()>
    requires { F.IsAlwaysCallable write }
{
    let n = fields.number(buffers::ROOM)?;
    let mut out = buffers::room();
    write(&mut out[..n]);
    Some(())
}

fn ask_name(mode: Mode, text: &[u8], fields: &mut Fields) -> Option<()> {
    let symbol = fields.number(NUMBER_MOST)?;
    ask_text(fields, |out| {
        replay_answers::symbol_name(mode, text, symbol, out)
    })
}

fn ask_match(mode: Mode, text: &[u8], input: &[u8], fields: &mut Fields) -> Option<()> {
    let c = fields.number(buffers::CELLS)?;
    let k = fields.number(buffers::NODES)?;
    let mut cells = buffers::cells();
    let mut nodes = buffers::nodes();
    replay_answers::match_input(mode, text, input, &mut cells[..c], &mut nodes[..k]);
    Some(())
}

fn ask_lake(mode: Mode, text: &[u8], input: &[u8], fields: &mut Fields) -> Option<()> {
    let c = fields.number(buffers::CELLS)?;
    let lake = fields.number(NUMBER_MOST)?;
    let place = fields.number(NUMBER_MOST)?;
    let mut cells = buffers::cells();
    replay_answers::lake_at(mode, text, input, &mut cells[..c], lake, place);
    Some(())
}

// A function pays at entry for the rooms in its frame, so each room stands in a function that is not inlined and is called when the room's field is seen to be
// right: here and below, and in `replay_nodes`, `replay_records` and `replay_trees`.
// The grammar stands in the line from `from` to `to`.
#[inline(never)]
fn ask_grammar(
    question: OnGrammar,
    mode: Mode,
    (from, to): (usize, usize),
    fields: &mut Fields,
) -> Option<()> {
    let mut room = buffers::text();
    let n = decode(fields.line, from, to, &mut room);
    let text = &room[..n];
    match question {
        OnGrammar::Read => replay_answers::read(mode, text),
        OnGrammar::Sets => ask_sets(mode, text, fields)?,
        OnGrammar::Skip => replay_answers::cannot_skip(mode, text),
        OnGrammar::Own => { ask_text(fields, |out| replay_answers::write_own(mode, text, out))? }
        OnGrammar::Plain => {
            ask_text(fields, |out| replay_answers::write_plain(mode, text, out))?
        }
        OnGrammar::Name => ask_name(mode, text, fields)?,
    }
    Some(())
}

// The mode's field comes next, then the grammar's.
fn on_grammar(question: OnGrammar, fields: &mut Fields) -> Option<()> {
    let mode = named(&MODES, fields)?;
    let place = fields.hex(buffers::TEXT)?;
    ask_grammar(question, mode, place, fields)
}

// The input stands in the line from `from` to `to`.
#[inline(never)]
fn ask_input(
    question: OnInput,
    mode: Mode,
    text: &[u8],
    (from, to): (usize, usize),
    fields: &mut Fields,
) -> Option<()> {
    let mut input = buffers::input();
    let n = decode(fields.line, from, to, &mut input);
    let input = &input[..n];
    match question {
        OnInput::Match => ask_match(mode, text, input, fields),
        OnInput::Lake => ask_lake(mode, text, input, fields),
        OnInput::Json => replay_trees::ask_json(mode, text, input, fields),
        OnInput::Unjson => replay_trees::ask_unjson(mode, text, input, fields),
        OnInput::Summary => replay_records::ask_summary(mode, text, input, fields),
    }
}

// The grammar stands in the line from `from` to `to`, and the input's field comes next.
#[inline(never)]
fn ask_both(
    question: OnInput,
    mode: Mode,
    (from, to): (usize, usize),
    fields: &mut Fields,
) -> Option<()> {
    let mut room = buffers::text();
    let n = decode(fields.line, from, to, &mut room);
    let place = fields.hex(buffers::INPUT)?;
    ask_input(question, mode, &room[..n], place, fields)
}

// The mode's field comes next, then the grammar's and the input's.
fn on_input(question: OnInput, fields: &mut Fields) -> Option<()> {
    let mode = named(&MODES, fields)?;
    let place = fields.hex(buffers::TEXT)?;
    ask_both(question, mode, place, fields)
}

// None where the line is no question, or lends more than there is.
fn ask(fields: &mut Fields) -> Option<()> {
    match named(&QUESTIONS, fields)? {
        Question::OnGrammar(question) => on_grammar(question, fields),
        Question::OnInput(question) => on_input(question, fields),
        Question::Where => replay_records::ask_where(fields),
        Question::Handed => replay_nodes::ask_handed(fields),
        Question::Sound => replay_nodes::ask_sound(fields),
        Question::Text => replay_nodes::text_at(fields),
    }
}

// The line answered, whatever it is.
pub fn answer(line: &[u8]) {
    if ask(&mut Fields { line, at: 0 }).is_none() {
        console::unreadable();
    }
}
