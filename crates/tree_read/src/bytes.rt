// Bytes that must stand in a text at a place.
ghost use Rattle.std.specs.Prelude.{◌≤◌, length, IfSome};
ghost use Rattle.tree_json.specs.Reading.{ate};
ghost use Rattle.tree_read.specs.steps.Places.{Reached};

// The place behind the bytes, if they stand there.
pub fn eat(json: &[u8], at: usize, bytes: &[u8]) -> Option<usize>
    ensures place { Reached json.now (ate bytes.now json.now at) result }
    ensures inside { IfSome result (λ a. a ≤ length json.now) }
{
    if json.get(at..)?.starts_with(bytes) {
        Some(at + bytes.len())
    } else {
        None
    }
}
