// The corner of ascending order: rows sorted by their bytes, in the memory in which they lie.

ghost use Rattle.std.specs.Prelude.{◌≡◌, ◌+◌, ◌*◌, ◌≤◌, ◌<◌, length};
ghost use Rattle.rules.specs.Sizes.{most_types, row_size, state_area};
ghost use Rattle.memory.specs.Placed.{placed};
ghost use Rattle.types.specs.State.{stored_at, laid};
ghost use Rattle.round.specs.Sorted.{before, row_place, with_row, sorted};

use memory::copy;
use rules::ROW;
use types::row_at;

// Whether row i stands before a row: the first difference decides.
fn before(rows: &[u8], i: usize, row: &[u8; ROW]) -> bool
    requires { row_size * i + row_size ≤ length rows.now }
    ensures { result ≡ before (stored_at rows.now i) row.now }
{
    let at = ROW * i;
    // as a slice, the row is known to have 64 bytes
    let bytes: &[u8] = row;
    for c in 0..ROW {
        if rows[at + c] != bytes[c] {
            return rows[at + c] < bytes[c];
        }
    }
    false
}

// The place of a row: the first of the rows that does not stand before it, or their count.
fn place_of_row(rows: &[u8], count: usize, row: &[u8; ROW]) -> usize
    requires { row_size * count ≤ length rows.now }
    ensures { (result ≡ row_place rows.now count row.now) × (result ≤ count) }
{
    for i in 0..count {
        if !before(rows, i, row) {
            return i;
        }
    }
    count
}

// Puts a row into its place, and those from there on move up.
fn insert(rows: &mut [u8], count: usize, row: &[u8; ROW])
    requires { (count < most_types) × (length rows.old ≡ state_area) }
    ensures { rows.new ≡ with_row rows.old count row.now }
{
    let i = place_of_row(rows, count, row);
    rows.copy_within(ROW * i..ROW * count, ROW * i + ROW);
    copy(row, rows, ROW * i);
}

// Puts the rows into ascending order. What is behind them stays.
pub fn ascending(rows: &mut [u8], count: usize)
    requires { (count ≤ most_types) × (length rows.old ≡ state_area) }
    ensures { rows.new ≡ placed rows.old 0 (laid (sorted count (stored_at rows.old))) }
{
    for k in 0..count {
        let row = row_at(rows, k);
        insert(rows, k, &row);
    }
}
