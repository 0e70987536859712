// The corner of guesses: whether a row is among those made, or among those gathered since. Where a row stands is guessed first, by a
// table of guesses that may hold any numbers: a guess is checked, and a wrong one costs a search. It reads the state area.

ghost use Rattle.std.specs.Prelude.{◌≡◌, ◌+◌, ◌*◌, ◌≤◌, ◌<◌, ltb, length, set};
ghost use Rattle.rules.specs.Sizes.{most_types, row_size};
ghost use Rattle.rules.specs.Types.{is_same_row};
ghost use Rattle.medians.specs.Guesses.{slot_of, known_at, right_guess, guesses_of, guesses_size};

use rules::ROW;
use types::{find_row, row_at};

// So many guesses are kept.
pub const GUESSES: usize = 4096;

// Whether two rows of 64 bytes are the same.
pub fn alike(a: &[u8], b: &[u8]) -> bool
    requires { (length a.now ≡ row_size) × (length b.now ≡ row_size) }
    ensures { result ≡ is_same_row a.now b.now }
{
    a == b
}

// The place of a row's guess: its bytes, mixed.
fn slot(row: &[u8; ROW]) -> usize
    ensures { (result ≡ slot_of row.now) × (result < guesses_size) }
{
    let mut sum = 0u32;
    for c in 0..ROW {
        let key = c as u32;
        sum += u32::from(row[c]) * (13 * key * key + 4801);
    }
    sum as usize % GUESSES
}

// Whether the guess is right. Numbers from `made` on are places among the rows gathered.
pub fn guessed(
    states: &[u8],
    made: usize,
    gathered: &[u8],
    count: usize,
    guesses: &[u16],
    row: &[u8; ROW],
) -> bool
    requires { (row_size * made ≤ length states.now) × (row_size * count ≤ length gathered.now) × (made + count ≤ most_types) × (length guesses.now ≡ guesses_size) }
    ensures { result ≡ right_guess states.now made gathered.now count guesses.now row.now }
{
    let guess = usize::from(guesses[slot(row)]);
    if guess < made {
        alike(&states[ROW * guess..ROW * guess + ROW], row)
    } else if guess < made + count {
        let k = guess - made;
        alike(&gathered[ROW * k..ROW * k + ROW], row)
    } else {
        false
    }
}

// Whether a row is known. Its place is the next guess; a row that is new stands behind all others if it is gathered now.
pub fn is_known(
    states: &[u8],
    made: usize,
    gathered: &[u8],
    count: usize,
    guesses: &mut [u16],
    row: &[u8; ROW],
) -> bool
    requires { (row_size * made ≤ length states.now) × (row_size * count ≤ length gathered.now) × (made + count ≤ most_types) × (length guesses.old ≡ guesses_size) }
    ensures { (result ≡ ltb (known_at states.now made gathered.now count row.now) (made + count))
        × (guesses.new ≡ set guesses.old (slot_of row.now) (known_at states.now made gathered.now count row.now)) }
{
    let at = slot(row);
    let i = find_row(states, made, row);
    if i < made {
        guesses[at] = i as u16;
        return true;
    }
    let k = find_row(gathered, count, row);
    guesses[at] = (made + k) as u16;
    k < count
}

// A table in which every row made guesses its own number.
pub fn guess_all(states: &[u8], made: usize) -> [u16; GUESSES]
    requires { (made ≤ most_types) × (row_size * made ≤ length states.now) }
    ensures { result ≡ guesses_of states.now made }
{
    let mut guesses = [256u16; GUESSES];
    for i in 0..made {
        let row = row_at(states, i);
        guesses[slot(&row)] = i as u16;
    }
    guesses
}
