// The corner of lines that hold numbers: a text with marks, filled into memory that is lent. A byte below the count of the numbers is the
// mark of that number; the byte behind those is the mark of a row of states.

ghost use Rattle.std.specs.Prelude.{◌+◌, ◌≤◌, length};
ghost use Rattle.memory.specs.Placed.{Follows};
ghost use Rattle.text.specs.Template.{piece, filled};

use memory::decimals::{put, put_decimal};

// What one byte of the text gives. What is handed back, here and below, is the place behind it.
fn put_piece(out: &mut [u8], at: usize, byte: u8, numbers: &[usize], row: &[u8]) -> usize
    requires { at + length (piece numbers.now row.now byte) ≤ length out.old }
    ensures { Follows out.old at (piece numbers.now row.now byte) out.new result }
{
    let mark = byte as usize;
    if mark < numbers.len() {
        return put_decimal(out, at, numbers[mark]);
    }
    if mark == numbers.len() {
        return put(out, at, row);
    }
    out[at] = byte;
    at + 1
}

pub fn fill(out: &mut [u8], at: usize, s: &[u8], numbers: &[usize], row: &[u8]) -> usize
    requires { at + length (filled s.now numbers.now row.now) ≤ length out.old }
    ensures { Follows out.old at (filled s.now numbers.now row.now) out.new result }
{
    let mut at = at;
    for byte in s {
        at = put_piece(out, at, *byte, numbers, row);
    }
    at
}
