// The corner of retiring: of the current types some stay and the others go. What is left of their distances, kinds and rows moves
// together; the rows of those that go move behind all rows made, and stay known. It writes the state area and the distance area.

ghost use Rattle.std.specs.Prelude.{◌≡◌, ◌++◌, ◌+◌, ◌*◌, ◌≤◌, ◌<◌, length};
ghost use Rattle.rules.specs.Sizes.{most_types, row_size, distance_area};
ghost use Rattle.types.specs.State.{stored_at, rows_from};
ghost use Rattle.memory.specs.Placed.{placed};
ghost use Rattle.distances.specs.Area.{CellsWritten, Line};
ghost use Rattle.purge.specs.Left.{Chosen, Among, squeezed, KindsLeft, parted};

use memory::copy;
use rules::{Kind, LINE, MOST_TYPES, ROW};
use types::{no_kinds, row_at};

// Line a of t types of which some stay.
fn line_left(area: &mut [u16], kept: &[usize], count: usize, t: usize, a: usize)
    requires { Chosen kept.now count t × (a < t) × (t ≤ most_types) × (distance_area ≤ length area.old) }
    ensures { CellsWritten (Line a t) (squeezed kept.now count area.old) area.old area.new }
{
    for b in 0..t {
        area[LINE * a + b] = if a < b && b < count {
            area[LINE * kept[a] + kept[b]]
        } else {
            0
        };
    }
}

// Of t types those at the places `kept` stay: their distances move together, and the rest of the t lines and columns is zero.
pub fn distances_left(area: &mut [u16], kept: &[usize], count: usize, t: usize)
    requires { Chosen kept.now count t × (t ≤ most_types) × (distance_area ≤ length area.old) }
    ensures { CellsWritten (Among t) (squeezed kept.now count area.old) area.old area.new }
{
    for a in 0..t {
        line_left(area, kept, count, t, a);
    }
}

// The kinds of the types that stay.
pub fn kinds_left(kinds: [Kind; MOST_TYPES], kept: &[usize], count: usize) -> [Kind; MOST_TYPES]
    requires { Chosen kept.now count most_types }
    ensures { KindsLeft kinds kept.now count result }
{
    let mut left = no_kinds();
    for a in 0..count {
        left[a] = kinds[kept[a]];
    }
    left
}

// Row i goes behind the other rows made, and those behind it move down.
fn to_the_end(states: &mut [u8], made: usize, i: usize)
    requires { (i < made) × (made ≤ most_types) × (row_size * made ≤ length states.old) }
    ensures { states.new ≡ placed states.old (row_size * i) (rows_from states.old (i + 1) made ++ stored_at states.old i) }
{
    let end = ROW * made - ROW;
    let row = row_at(states, i);
    states.copy_within(ROW * i + ROW..ROW * made, ROW * i);
    copy(&row, states, end);
}

// Of the first t rows made those at the places `kept` stay in front, and the others go behind all rows made.
pub fn rows_left(states: &mut [u8], kept: &[usize], count: usize, t: usize, made: usize)
    requires { Chosen kept.now count t × (t ≤ made) × (made ≤ most_types) × (row_size * made ≤ length states.old) }
    ensures { states.new ≡ placed states.old 0 (parted kept.now count t made states.old) }
{
    let mut a = 0;
    for i in 0..t {
        if a < count && kept[a] == i {
            a += 1;
        } else {
            to_the_end(states, made, a);
        }
    }
}
