// The room of distances: the distance of two stored rows, and the lent distance area. Its line i has 128 cells; cell j of line i
// holds the distance of types i and j where i is below j. The mirror cells belong to the search for links. It reads the state
// area and writes the distance area.

#![tactic(auto)]

ghost use Rattle.std.specs.Prelude.{◌≡◌, cond, ◌+◌, ◌*◌, ◌≤◌, ◌<◌, eqb, length};
ghost use Rattle.rules.specs.Sizes.{most_types, row_size, distance_area};
ghost use Rattle.distances.specs.Area.{Weighed, CellsWritten, New, stored_apart};

use rules::{LINE, ROW};

// What a character counts: its weight where two states differ, and else 0. By value, so that no branch stands in the sum's way.
fn counted(x: u8, y: u8, weight: u16) -> u16
    ensures { result ≡ cond (eqb x y) 0 weight }
{
    if x == y { 0 } else { weight }
}

// The distance of two types: the sum of the weights of the characters in which their rows differ. All 64 characters are
// compared; those past the width weigh nothing.
pub fn distance(states: &[u8], weights: &[u16], i: usize, j: usize) -> u16
    requires { Weighed weights.now × (row_size * i + row_size ≤ length states.now) × (row_size * j + row_size ≤ length states.now) }
    ensures { result ≡ stored_apart weights.now states.now i j }
{
    let a = ROW * i;
    let b = ROW * j;
    let mut sum = 0u16;
    for c in 0..ROW {
        sum += counted(states[a + c], states[b + c], weights[c]);
    }
    sum
}

// The distances of type j and the types before it.
fn measure_one(states: &[u8], area: &mut [u16], weights: &[u16], j: usize)
    requires { Weighed weights.now × (j < most_types) × (row_size * j + row_size ≤ length states.now) × (distance_area ≤ length area.old) }
    ensures { CellsWritten (New j (j + 1)) (stored_apart weights.now states.now) area.old area.new }
{
    for i in 0..j {
        area[LINE * i + j] = distance(states, weights, i, j);
    }
}

// The distances of the types below `to`, from `from` on, and the types before each.
pub fn measure(states: &[u8], area: &mut [u16], weights: &[u16], from: usize, to: usize)
    requires { Weighed weights.now × (to ≤ most_types) × (row_size * to ≤ length states.now) × (distance_area ≤ length area.old) }
    ensures { CellsWritten (New from to) (stored_apart weights.now states.now) area.old area.new }
{
    for j in from..to {
        measure_one(states, area, weights, j);
    }
}
