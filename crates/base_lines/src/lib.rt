// The line and the column of a position (02, par. 2): both from 1, and a line feed ends the line that it stands on.
#![tactic(auto)]

ghost use Rattle.std.specs.Prelude.{◌<◌, min, ◌≡◌};
ghost use Rattle.base_lines.specs.Lines.{place_at};
ghost use Rattle.base_lines.specs.steps.Behind.{behind};

#[derive(Clone, Copy)]
pub struct Place {
    pub line: usize,
    pub column: usize,
}

// The byte that ends a line.
const LINE_FEED: u8 = 10;

impl Place {
    // The place behind a byte that stands here.
    fn behind(self, byte: u8) -> Place
        requires { (self.line < 9223372036854775808) × (self.column < 9223372036854775808) }
        ensures { result ≡ behind self byte }
    {
        if byte == LINE_FEED {
            Place {
                line: self.line + 1,
                column: 1,
            }
        } else {
            Place {
                column: self.column + 1,
                ..self
            }
        }
    }
}

// Of a position in a text; one behind its end is taken for the end.
pub fn place_of(text: &[u8], position: usize) -> Place
    ensures { result ≡ place_at text.now position }
{
    let mut at = Place { line: 1, column: 1 };
    for byte in &text[..position.min(text.len())] {
        at = at.behind(*byte);
    }
    at
}
