// The corner of mismatches: the characters in which two rows made differ, told in one number with a bit for each character. It reads the
// state area. Mismatches are kept once they are known, in lent memory that has a number for every two rows.

ghost use Rattle.std.specs.Prelude.{◌≡◌, false, not, ◌+◌, ◌*◌, ◌≤◌, ◌<◌, eqb, length};
ghost use Rattle.rules.specs.Sizes.{most_width, row_size};
ghost use Rattle.triplets.specs.Mismatches.{bit, mismatches_in, Unused, Narrow, PairTable};

use rules::{LINE, MOST_WIDTH, ROW};

// Mismatches that are not known yet: a number and no Option, since the lent memory has one number for every two rows. (Rows that agree
// in the first of 64 characters only have this number too: theirs are found each time.)
pub const UNKNOWN: u64 = 18446744073709551614;

// Whether a row made holds a state in character c.
fn in_use(states: &[u8], made: usize, c: usize) -> bool
    requires { (c < most_width) × (row_size * made ≤ length states.now) }
    ensures { result ≡ false → Unused states.now made c }
{
    (0..made).any(|i| states[ROW * i + c] != 0)
}

// How many characters are in use: from here on every row made holds zeros.
pub fn width_in_use(states: &[u8], made: usize) -> usize
    requires { row_size * made ≤ length states.now }
    ensures { Narrow states.now made result }
{
    for c in (0..MOST_WIDTH).rev() {
        if in_use(states, made, c) {
            return c + 1;
        }
    }
    0
}

// 1 where two states differ.
fn unlike(x: u8, y: u8) -> u64
    ensures { result ≡ bit (not (eqb x y)) }
{
    u64::from(x != y)
}

// The mismatches of rows i and j, of m characters.
fn find_mismatches(states: &[u8], m: usize, i: usize, j: usize) -> u64
    requires { (m ≤ most_width) × (row_size * i + row_size ≤ length states.now) × (row_size * j + row_size ≤ length states.now) }
    ensures { result ≡ mismatches_in states.now m i j }
{
    let first = ROW * i;
    let second = ROW * j;
    let mut bits = 0u64;
    for c in (0..m).rev() {
        bits = bits * 2 + unlike(states[first + c], states[second + c]);
    }
    bits
}

// The same, kept or made now. It is kept for both orders of the rows.
pub fn mismatches_of(
    states: &[u8],
    mismatches: &mut [u64],
    m: usize,
    made: usize,
    i: usize,
    j: usize,
) -> u64
    requires { PairTable states.now m made mismatches.old × (i < made) × (j < made) }
    ensures { (result ≡ mismatches_in states.now m i j) × PairTable states.now m made mismatches.new
        × (length mismatches.new ≡ length mismatches.old) }
{
    let kept = mismatches[LINE * i + j];
    if kept != UNKNOWN {
        return kept;
    }
    let found = find_mismatches(states, m, i, j);
    mismatches[LINE * i + j] = found;
    mismatches[LINE * j + i] = found;
    found
}
