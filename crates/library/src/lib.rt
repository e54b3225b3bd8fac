// The public calls for C and other languages: numbers and slices only, all memory lent, nothing kept. Each leaves its numbers in `out`, which
// library_numbers/specs/Words.antt defines from the answer of the public call, and returns the first of them: 0, a refusal's number, or 100 for no match.
// `mode` is 0 for lake, every other byte is plain. `include/gurkenmond.h` declares them for C; `tests/library.py` compares the two.
#![tactic(auto)]

ghost use Rattle.std.specs.Prelude.{◌≡◌};
ghost use Rattle.match_list.specs.Nodes.{sound_at};
ghost use Rattle.prepare.specs.Reads.{read_of};
ghost use Rattle.gurkenmond.specs.Calls.{sets_of, cannot_skip_of, match_of, lake_of, write_own_of, write_plain_of, symbol_name_of};
ghost use Rattle.gurkenmond.specs.Calls.{write_json_of, read_json_of, summarise_of, spot_of};
ghost use Rattle.library_numbers.specs.Words.{mode_of, Answers, read_words, sets_words, lakes_words, sound_words, span_words, NumbersMatch, NumbersLake};
ghost use Rattle.library_numbers.specs.Words.{NumbersText};
ghost use Rattle.library_numbers.specs.Words.{NumbersParsed, NumbersSummed, spot_words};

// 0, symbols, terminals, expressions.
#[unsafe(no_mangle)]
pub extern "C" fn gm_read(mode: u8, text: &[u8], out: &mut [u64; 4]) -> u64
    ensures { Answers result out.new (read_words (read_of (mode_of mode) text.now)) }
{
    let m = library_numbers::mode_of(mode);
    let c = gurkenmond::read(m, text);
    *out = library_numbers::of_read(c.verdict, c.symbols, c.terminals, c.expressions);
    out[0]
}

// 0, the round count, two words each of BEGINNING, SUCCEED and ALT of an expression of the intermediate grammar, then 1 for ε.
#[unsafe(no_mangle)]
pub extern "C" fn gm_sets(mode: u8, text: &[u8], expression: usize, out: &mut [u64; 9]) -> u64
    ensures { Answers result out.new (sets_words (sets_of (mode_of mode) text.now expression)) }
{
    let m = library_numbers::mode_of(mode);
    let c = gurkenmond::sets(m, text, expression);
    *out = library_numbers::of_sets(c.verdict, c.rounds, c.sets);
    out[0]
}

// 0, the lakes that cannot skip (bit = symbol number).
#[unsafe(no_mangle)]
pub extern "C" fn gm_cannot_skip(mode: u8, text: &[u8], out: &mut [u64; 4]) -> u64
    ensures { Answers result out.new (lakes_words (cannot_skip_of (mode_of mode) text.now)) }
{
    let m = library_numbers::mode_of(mode);
    let c = gurkenmond::cannot_skip(m, text);
    *out = library_numbers::of_lakes(c.verdict, c.word);
    out[0]
}

// 0, bytes taken, nodes; the nodes are four words each: symbol, start, end, depth.
#[unsafe(no_mangle)]
pub extern "C" fn gm_match(
    mode: u8,
    text: &[u8],
    input: &[u8],
    cells: &mut [u32],
    nodes: &mut [u32],
    out: &mut [u64; 4],
) -> u64
    ensures { NumbersMatch result out.new cells.new nodes.new
        (match_of (mode_of mode) text.now input.now cells.old nodes.old) }
{
    let m = library_numbers::mode_of(mode);
    let a = gurkenmond::match_input(m, text, input, cells, nodes);
    *out = library_numbers::of_match(a.outcome, a.nodes);
    out[0]
}

// 0, how the lake matches at the place: 0 not, 1 by its rule, 2 by water, 3 by one skipped byte.
#[unsafe(no_mangle)]
pub extern "C" fn gm_lake_at(
    mode: u8,
    text: &[u8],
    input: &[u8],
    cells: &mut [u32],
    lake: usize,
    place: usize,
    out: &mut [u64; 4],
) -> u64
    ensures { NumbersLake result out.new cells.new
        (lake_of (mode_of mode) text.now input.now cells.old lake place) }
{
    let m = library_numbers::mode_of(mode);
    let a = gurkenmond::lake_at(m, text, input, cells, lake, place);
    *out = library_numbers::of_one(a.verdict, library_numbers::of_way(a.way));
    out[0]
}

// 0, then 1 if node k lies whole in the words with start ≤ end ≤ n, else 0.
#[unsafe(no_mangle)]
pub extern "C" fn gm_node_sound(nodes: &[u32], k: usize, n: usize, out: &mut [u64; 4]) -> u64
    ensures { Answers result out.new (sound_words (sound_at nodes.now k n)) }
{
    let sound = gurkenmond::node_sound(nodes, k, n);
    *out = [0, library_numbers::bit(sound), 0, 0];
    out[0]
}

// 0, where the text of node k begins in the input, how many bytes it has; 0, 0, 0 for an unsound node.
#[unsafe(no_mangle)]
pub extern "C" fn gm_node_text(input: &[u8], nodes: &[u32], k: usize, out: &mut [u64; 4]) -> u64
    ensures { Answers result out.new (span_words input.now nodes.now k) }
{
    *out = library_numbers::of_span(input, nodes, k);
    out[0]
}

// 0, bytes written; or 13, bytes needed.
#[unsafe(no_mangle)]
pub extern "C" fn gm_write_own(mode: u8, text: &[u8], room: &mut [u8], out: &mut [u64; 4]) -> u64
    ensures { NumbersText result out.new room.new (write_own_of (mode_of mode) text.now room.old) }
{
    let m = library_numbers::mode_of(mode);
    let a = gurkenmond::write_own(m, text, room);
    *out = library_numbers::of_one(a.verdict, a.bytes);
    out[0]
}

// The same for the plain text.
#[unsafe(no_mangle)]
pub extern "C" fn gm_write_plain(mode: u8, text: &[u8], room: &mut [u8], out: &mut [u64; 4]) -> u64
    ensures { NumbersText result out.new room.new (write_plain_of (mode_of mode) text.now room.old) }
{
    let m = library_numbers::mode_of(mode);
    let a = gurkenmond::write_plain(m, text, room);
    *out = library_numbers::of_one(a.verdict, a.bytes);
    out[0]
}

// The same for the name of a symbol, as it stands in the grammar.
#[unsafe(no_mangle)]
pub extern "C" fn gm_symbol_name(
    mode: u8,
    text: &[u8],
    symbol: usize,
    room: &mut [u8],
    out: &mut [u64; 4],
) -> u64
    ensures { NumbersText result out.new room.new (symbol_name_of (mode_of mode) text.now symbol room.old) }
{
    let m = library_numbers::mode_of(mode);
    let a = gurkenmond::symbol_name(m, text, symbol, room);
    *out = library_numbers::of_one(a.verdict, a.bytes);
    out[0]
}

// The same for a node list as JSON text; the list is all words handed over.
#[unsafe(no_mangle)]
pub extern "C" fn gm_write_json(
    mode: u8,
    text: &[u8],
    input: &[u8],
    nodes: &[u32],
    room: &mut [u8],
    out: &mut [u64; 4],
) -> u64
    ensures { NumbersText result out.new room.new
        (write_json_of (mode_of mode) text.now input.now nodes.now room.old) }
{
    let m = library_numbers::mode_of(mode);
    let a = gurkenmond::write_json(m, text, input, nodes, room);
    *out = library_numbers::of_one(a.verdict, a.bytes);
    out[0]
}

// 0, nodes: the list that a JSON text says; or 12, the nodes that there is room for.
#[unsafe(no_mangle)]
pub extern "C" fn gm_read_json(
    mode: u8,
    text: &[u8],
    input: &[u8],
    json: &[u8],
    nodes: &mut [u32],
    out: &mut [u64; 4],
) -> u64
    ensures { NumbersParsed result out.new nodes.new
        (read_json_of (mode_of mode) text.now input.now json.now nodes.old) }
{
    let m = library_numbers::mode_of(mode);
    let a = gurkenmond::read_json(m, text, input, json, nodes);
    *out = library_numbers::of_one(a.verdict, a.nodes);
    out[0]
}

// 0, symbols: so many records are written, one for each symbol; or 17, how many are needed.
#[unsafe(no_mangle)]
pub extern "C" fn gm_summarise(
    mode: u8,
    text: &[u8],
    input: &[u8],
    nodes: &[u32],
    records: &mut [gurkenmond::Summary],
    out: &mut [u64; 4],
) -> u64
    ensures { NumbersSummed result out.new records.new
        (summarise_of (mode_of mode) text.now input.now nodes.now records.old) }
{
    let m = library_numbers::mode_of(mode);
    let a = gurkenmond::summarise(m, text, input, nodes, records);
    *out = library_numbers::of_summed(a);
    out[0]
}

// 0, line, column of a position.
#[unsafe(no_mangle)]
pub extern "C" fn gm_line_and_column(input: &[u8], position: usize, out: &mut [u64; 4]) -> u64
    ensures { Answers result out.new (spot_words (spot_of input.now position)) }
{
    let s = gurkenmond::line_and_column(input, position);
    *out = library_numbers::of_spot(s);
    out[0]
}
