// Answers questions from standard input, one a line; a line that is no question is answered by `unreadable`, and so is one that is longer than the buffer
// or that lends more than there is.
//   read MODE GRAMMAR                         read SYMBOLS TERMINALS EXPRESSIONS
//   sets MODE GRAMMAR EXPRESSION              sets B0 B1 S0 S1 A0 A1 EPS ROUNDS
//   skip MODE GRAMMAR                         skip and the numbers of the lakes that cannot skip
//   match MODE GRAMMAR INPUT CELLS NODEWORDS  match TAKEN or none; then every lent word
//   lake MODE GRAMMAR INPUT CELLS LAKE PLACE  value 0 to 3; then every lent cell
//   own MODE GRAMMAR ROOM                     text BYTES
//   plain MODE GRAMMAR ROOM                   text BYTES
//   name MODE GRAMMAR SYMBOL ROOM             text BYTES
//   json MODE GRAMMAR INPUT WORDS ROOM        text BYTES
//   unjson MODE GRAMMAR INPUT JSON NODEWORDS  nodes COUNT; then every lent word
//   summary MODE GRAMMAR INPUT WORDS RECORDS  summary SYMBOLS; then every lent record, x for one that is as it was lent
//   where INPUT POSITION                      at LINE COLUMN
// or `refused NUMBER PLACE`; and on node words, with no refusal,
//   sound WORDS NODE LENGTH                   sound 0 or 1
//   text INPUT WORDS NODE                     text BYTES
//   handed WORDS                              handed and the four numbers of each node
// MODE is `lake` or `plain`; bytes are in hexadecimal, `-` is the empty text; WORDS are numbers with `,` between, `-` none. Every lent word holds
// 3,735,928,559 before the call.
#![tactic(auto)]

// The line so far is answered; none is one that is longer than there is room for. Its size stands beside it, here and below: no heap, fixed memory.
fn finish(line: &[u8], size: Option<usize>) {
    match size {
        Some(k) if k <= line.len() => replay_asks::answer(&line[..k]),
        _ => console::unreadable(),
    }
}

// One byte of the questions: how many the line has then, none where they are too many.
fn take(line: &mut [u8], size: Option<usize>, b: u8) -> Option<usize> {
    if b == b'\n' {
        finish(line, size);
        return Some(0);
    }
    let k = size?;
    if line.len() <= k {
        return None;
    }
    line[k] = b;
    Some(k + 1)
}

fn feed(chunk: &[u8], line: &mut [u8], size: Option<usize>) -> Option<usize> {
    let mut size = size;
    for b in chunk {
        size = take(line, size, *b);
    }
    size
}

// Up to 4 GiB of questions, a chunk a turn.
fn answer_all(chunk: &mut [u8], line: &mut [u8]) {
    let mut size = Some(0);
    for _ in 0..65536 {
        let n = io::read_full(0, chunk);
        if n == 0 {
            break;
        }
        size = feed(&chunk[..n], line, size);
    }
    if size != Some(0) {
        finish(line, size);
    }
}

fn main() {
    let mut chunk = io::large_buffer();
    let mut line = replay_lines::buffers::line();
    answer_all(&mut chunk, &mut line);
}
