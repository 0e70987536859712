// The room of types: how they lie in memory. A type's states lie in the lent state area, 64 bytes to a type, and its origin in an array
// of kinds; here both are only read. In its corner (`sample`) the equal rows of a job become sampled types.

#![tactic(auto)]

pub mod sample;

ghost use Rattle.std.specs.Prelude.{◌≡◌, ◌+◌, ◌*◌, ◌≤◌, length, replicate};
ghost use Rattle.graph.specs.Below.{first};
ghost use Rattle.rules.specs.Sizes.{most_types, row_size};
ghost use Rattle.rules.specs.Types.{is_same_row};
ghost use Rattle.types.specs.State.{stored_at, blank};

use memory::eight_at;
use rules::{Kind, MOST_TYPES, Origin, ROW};

// The row of type i, as it is stored.
pub fn row_at(states: &[u8], i: usize) -> [u8; ROW]
    requires { row_size * i + row_size ≤ length states.now }
    ensures { result ≡ stored_at states.now i }
{
    let from = ROW * i;
    <[u8; ROW]>::try_from(&states[from..from + ROW]).unwrap()
}

// Whether type i of the state area has this row: eight bytes are compared at once.
pub fn same_row(states: &[u8], i: usize, row: &[u8; ROW]) -> bool
    requires { row_size * i + row_size ≤ length states.now }
    ensures { result ≡ is_same_row (stored_at states.now i) row.now }
{
    let from = ROW * i;
    // as a slice, the row is known to have 64 bytes
    let bytes: &[u8] = row;
    for k in 0..8 {
        if eight_at(states, from + 8 * k) != eight_at(bytes, 8 * k) {
            return false;
        }
    }
    true
}

// The first of t types that has this row, or t where none does: `first` of the definitions is such a number, and t is the next free place.
// It is not compiled into its caller: when it was, a call took up to 1.6 times as long on one of two machines, by no more instructions.
#[inline(never)]
pub fn find_row(states: &[u8], t: usize, row: &[u8; ROW]) -> usize
    requires { row_size * t ≤ length states.now }
    ensures { result ≡ first t (λ i. is_same_row (stored_at states.now i) row.now) }
{
    for i in 0..t {
        if same_row(states, i, row) {
            return i;
        }
    }
    t
}

// Room for 128 kinds, none of them in use.
pub fn no_kinds() -> [Kind; MOST_TYPES]
    ensures { result ≡ replicate most_types blank }
{
    [Kind {
        origin: Origin::Sampled { rows: 0, first: 0 },
    }; MOST_TYPES]
}
