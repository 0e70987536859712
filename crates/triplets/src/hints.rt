// The corner of hints: a guess which row made has given states, without a look at its states. It reads the state area. A row has four
// planes of bits, and a table leads from their mix to a row's number. A guess may be wrong, and a table of hints may hold any numbers:
// whoever guesses checks. So nothing is promised here but that a guess is one of those numbers.

ghost use Rattle.std.specs.Prelude.{◌≡◌, ℕ, ◌+◌, ◌*◌, ◌≤◌, ◌<◌, length, get_or};
ghost use Rattle.triplets.specs.Mismatches.{hints_size};
ghost use Rattle.rules.specs.Sizes.{most_width, most_types, row_size};

use memory::eight_at;
use rules::ROW;

// Four planes for each row, and behind them a table of 4,096 places from a mix of planes to a row.
pub const HINTS: usize = 4608;

// The bits of a number at the places of a mask exchanged with those so many places above.
fn exchanged(x: u64, above: u32, mask: u64) -> u64
    requires { above < 64 }
{
    let differ = (x ^ (x >> above)) & mask;
    x ^ differ ^ (differ << above)
}

// Eight bytes of eight bits, turned: byte p has bit p of each, in their order. Bits are exchanged one by one, in pairs and in fours.
fn transposed(x: u64) -> u64 {
    let singles = exchanged(x, 7, 0x00aa00aa00aa00aa);
    let pairs = exchanged(singles, 14, 0x0000cccc0000cccc);
    exchanged(pairs, 28, 0x00000000f0f0f0f0)
}

// The planes of row i, eight characters at a time: bit c of plane p is bit p of the state in character c. Four planes tell letters apart,
// and digits.
fn planes_of(states: &[u8], m: usize, i: usize) -> [u64; 4]
    requires { (m ≤ most_width) × (row_size * i + row_size ≤ length states.now) }
{
    let mut planes = [0u64; 4];
    for k in (0..(m + 7) / 8).rev() {
        let bits = transposed(eight_at(states, ROW * i + 8 * k));
        for p in 0..4 {
            planes[p] = (planes[p] << 8) | ((bits >> (8 * p)) % 256);
        }
    }
    planes
}

// Where the row with these planes is looked for: in the table behind the planes. (A prime that is not close to a power of 2 mixes
// well, and dividing by this one takes few steps.)
fn slot_of(p: [u64; 4]) -> usize
    ensures { result < hints_size }
{
    let mix = p[0] ^ p[1].rotate_left(16) ^ p[2].rotate_left(32) ^ p[3].rotate_left(48);
    512 + (mix % 4021) as usize
}

// The hints of row i: its planes, and its number in their slot.
fn hint(states: &[u8], hints: &mut [u64], m: usize, i: usize)
    requires { (m ≤ most_width) × (i < most_types) × (row_size * i + row_size ≤ length states.now) × (length hints.old ≡ hints_size) }
    ensures { length hints.new ≡ hints_size }
{
    let p = planes_of(states, m, i);
    hints[4 * i..4 * i + 4].copy_from_slice(&p);
    hints[slot_of(p)] = i as u64;
}

// What guesses go by: four planes of bits for each row, and a table from their mix to a row. May hold any numbers.
pub fn hints(states: &[u8], hints: &mut [u64], m: usize, made: usize)
    requires { (m ≤ most_width) × (made ≤ most_types) × (row_size * made ≤ length states.now) × (length hints.old ≡ hints_size) }
    ensures { length hints.new ≡ hints_size }
{
    for i in 0..made {
        hint(states, hints, m, i);
    }
}

// The planes that are kept of row i.
fn planes_kept(hints: &[u64], i: usize) -> [u64; 4]
    requires { (i < most_types) × (hints_size ≤ length hints.now) }
{
    let at = 4 * i;
    [hints[at], hints[at + 1], hints[at + 2], hints[at + 3]]
}

// A plane with the bits of the second in the characters of k, and those of the first in the others.
fn mixed(first: u64, second: u64, k: u64) -> u64 {
    first ^ ((first ^ second) & k)
}

// A guess which row has the states of row v in the characters of k, and those of row u in the others: one of the numbers in the table.
pub fn guess(hints: &[u64], u: usize, v: usize, k: u64) -> usize
    requires { (u < most_types) × (v < most_types) × (hints_size ≤ length hints.now) }
    ensures { (at : ℕ) × (at < hints_size) × (result ≡ get_or hints.now at 0) }
{
    let p = planes_kept(hints, u);
    let q = planes_kept(hints, v);
    let both = std::array::from_fn(|n| mixed(p[n], q[n], k));
    hints[slot_of(both)] as usize
}
