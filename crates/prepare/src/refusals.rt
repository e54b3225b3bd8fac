// Refusals 1 to 5 of a grammar text (01, Refusal numbers).
ghost use Rattle.std.specs.Prelude.{◌≡◌};
ghost use Rattle.read_tokens.specs.Bounds.{text_bound};
ghost use Rattle.read_syntax.specs.steps.Found.{found};
ghost use Rattle.prepare.specs.steps.Scanned.{scanned};

use grammar_table::Table;
use read_syntax::syntax;
use read_syntax::syntax::Found;
use read_tokens::Mode;

// One function for each bound, as for `expression_bound`.
fn text_bound(mode: Mode) -> usize
    ensures { result ≡ text_bound mode }
{
    match mode {
        Mode::Lake => 16384,
        Mode::Plain => 1048576,
    }
}

// Refusals 1 to 5 in order of check. The names are ordered in a table that nothing is in yet: its words may be any, before and after.
pub fn refused(mode: Mode, text: &[u8], room: &mut Table) -> Option<Found>
    ensures { result ≡ found (scanned mode text.now) }
{
    let bound = text_bound(mode);
    if bound < text.len() {
        return Some(syntax::refuse(1, bound));
    }
    if let Some(f) = syntax::offending(mode, text) {
        return Some(f);
    }
    let names = read_names::lefts::refused(mode, text, room);
    if let Some(place) = names.second {
        return Some(syntax::refuse(4, place));
    }
    if let Some(place) = names.unruled {
        return Some(syntax::refuse(5, place));
    }
    None
}
