// The corner of decimals: a text and a number in decimals, one behind the other, in memory that is lent. Leaf code that knows nothing of
// networks.

ghost use Rattle.std.specs.Prelude.{◌++◌, ◌+◌, ◌≤◌, length};
ghost use Rattle.rules.specs.Text.{decimal};
ghost use Rattle.memory.specs.Placed.{Follows};

use crate::copy;

// A text behind what is written. What is handed back, here and below, is the place behind it.
pub fn put(out: &mut [u8], at: usize, s: &[u8]) -> usize
    requires { at + length s.now ≤ length out.old }
    ensures { Follows out.old at s.now out.new result }
{
    copy(s, out, at);
    at + s.len()
}

// A number in decimals: 20 digits are enough for any.
pub fn put_decimal(out: &mut [u8], at: usize, x: usize) -> usize
    requires { at + length (decimal x) ≤ length out.old }
    ensures { Follows out.old at (decimal x) out.new result }
{
    // by the kit's `itoa` it proves as well, but the text of a network with 1,408 links takes 4 % more instructions
    let mut digits = [0u8; 20];
    let mut first = 19;
    let mut left = x;
    while 10 <= left {
        digits[first] = (48 + left % 10) as u8;
        left /= 10;
        first -= 1;
    }
    digits[first] = (48 + left) as u8;
    put(out, at, &digits[first..])
}

// A text and a number behind it.
pub fn say(out: &mut [u8], at: usize, s: &[u8], x: usize) -> usize
    requires { at + length (s.now ++ decimal x) ≤ length out.old }
    ensures { Follows out.old at (s.now ++ decimal x) out.new result }
{
    let at = put(out, at, s);
    put_decimal(out, at, x)
}
