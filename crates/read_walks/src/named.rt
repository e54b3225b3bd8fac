// A symbol by its place in the text.
ghost use Rattle.std.specs.Prelude.{◌≡◌, true};
ghost use Rattle.read_tokens.specs.steps.Code.{symbolic};

use read_tokens::Kind;

// A name or a lake: which of them, and where the bytes of its name stand.
#[derive(Clone, Copy)]
pub struct Named {
    pub kind: Kind,
    pub from: usize,
    pub size: usize,
    pub ghost symbol: { symbolic kind ≡ true },
}
