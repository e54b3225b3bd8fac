// One table gives the kind of each byte.
ghost use Rattle.std.specs.Prelude.{◌≡◌};
ghost use Rattle.read_tokens.specs.Kinds.{kind_at};
ghost use Rattle.read_tokens.specs.steps.Bytes.{number_of, Tabled};

use ByteKind::{
    Blank, Class, Close, Digit, Dot, Hash, Less, Letter, Open, Other, Prefix, Quote, Slash, Suffix,
};

// What a byte may begin or belong to; `Other`: no token begins with it.
#[derive(Clone, Copy, PartialEq, Eq)]
pub enum ByteKind {
    Other,
    Blank,
    Letter,
    Digit,
    Hash,
    Open,
    Close,
    Slash,
    Prefix,
    Suffix,
    Dot,
    Quote,
    Class,
    Less,
}

const KINDS: [ByteKind; 256] = [
    Other, Other, Other, Other, Other, Other, Other, Other, Other, Blank, Blank, Other, Other,
    Blank, Other, Other, Other, Other, Other, Other, Other, Other, Other, Other, Other, Other,
    Other, Other, Other, Other, Other, Other, Blank, Prefix, Quote, Hash, Other, Other, Prefix,
    Quote, Open, Close, Suffix, Suffix, Other, Other, Dot, Slash, Digit, Digit, Digit, Digit,
    Digit, Digit, Digit, Digit, Digit, Digit, Other, Other, Less, Other, Other, Suffix, Other,
    Letter, Letter, Letter, Letter, Letter, Letter, Letter, Letter, Letter, Letter, Letter, Letter,
    Letter, Letter, Letter, Letter, Letter, Letter, Letter, Letter, Letter, Letter, Letter, Letter,
    Letter, Letter, Class, Other, Other, Other, Letter, Other, Letter, Letter, Letter, Letter,
    Letter, Letter, Letter, Letter, Letter, Letter, Letter, Letter, Letter, Letter, Letter, Letter,
    Letter, Letter, Letter, Letter, Letter, Letter, Letter, Letter, Letter, Letter, Other, Other,
    Other, Other, Other, Other, Other, Other, Other, Other, Other, Other, Other, Other, Other,
    Other, Other, Other, Other, Other, Other, Other, Other, Other, Other, Other, Other, Other,
    Other, Other, Other, Other, Other, Other, Other, Other, Other, Other, Other, Other, Other,
    Other, Other, Other, Other, Other, Other, Other, Other, Other, Other, Other, Other, Other,
    Other, Other, Other, Other, Other, Other, Other, Other, Other, Other, Other, Other, Other,
    Other, Other, Other, Other, Other, Other, Other, Other, Other, Other, Other, Other, Other,
    Other, Other, Other, Other, Other, Other, Other, Other, Other, Other, Other, Other, Other,
    Other, Other, Other, Other, Other, Other, Other, Other, Other, Other, Other, Other, Other,
    Other, Other, Other, Other, Other, Other, Other, Other, Other, Other, Other, Other, Other,
    Other, Other, Other, Other, Other, Other, Other, Other, Other, Other, Other, Other, Other,
    Other,
];

// The table to lend, with what it says of each byte. Wherever a constant array is named its bytes are laid out on the stack: so a walk names it once, and each
// look-up borrows it.
#[derive(Drop)]
pub struct ByteTable {
    kinds: [ByteKind; 256],
    ghost tabled: { Tabled kinds },
}

pub fn laid_out() -> ByteTable {
    ByteTable { kinds: KINDS }
}

pub fn kind_of(b: u8, table: &ByteTable) -> ByteKind
    ensures { number_of result ≡ kind_at b }
{
    table.kinds[usize::from(b)]
}
