// Room that is lent: a line of questions, a grammar, an input, cells, node words, output.
ghost use Rattle.std.specs.Prelude.{◌≡◌, length};

use console::filled;

// How much there is of each.
pub const LINE: usize = 2359296;

pub const TEXT: usize = 1048640;

pub const INPUT: usize = 65600;

pub const CELLS: usize = 131072;

pub const NODES: usize = 65536;

pub const ROOM: usize = 262144;

// What stands in lent words before a call.
const LENT: u32 = 3735928559;

pub fn line() -> [u8; LINE]
    ensures { 2359296 ≡ length result }
{
    filled(0)
}

pub fn text() -> [u8; TEXT]
    ensures { 1048640 ≡ length result }
{
    filled(0)
}

pub fn input() -> [u8; INPUT]
    ensures { 65600 ≡ length result }
{
    filled(0)
}

pub fn cells() -> [u32; CELLS]
    ensures { 131072 ≡ length result }
{
    filled(LENT)
}

pub fn nodes() -> [u32; NODES]
    ensures { 65536 ≡ length result }
{
    filled(LENT)
}

pub fn room() -> [u8; ROOM]
    ensures { 262144 ≡ length result }
{
    filled(0)
}
