// The text of a node list and the list that a text says: see specs/. Here the digits that both are written with.
#![tactic(auto)]

ghost use Rattle.std.specs.Prelude.{◌<◌, ◌≡◌};
ghost use Rattle.tree_json.specs.Json.{hex_digit, digit_of};

// Capital hex.
pub fn hex_digit(x: u8) -> u8
    requires { x < 16 }
    ensures { result ≡ hex_digit x }
{
    if x < 10 { b'0' + x } else { b'A' - 10 + x }
}

// The digit of n that counts k: 1 for ones, 10 for tens.
pub fn digit(k: usize, n: usize) -> u8
    requires { 0 < k }
    ensures { result ≡ digit_of k n }
{
    b'0' + (n / k % 10) as u8
}
