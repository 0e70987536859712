// The room of median vectors: the three of a triplet, and their connection cost. Its corners tell whether a vector is new (`guesses`), what
// one candidate makes of a search (`search`), and meet the vectors of a triplet (`visit`). It reads the state area.

#![tactic(auto)]

pub mod guesses;
pub mod search;
pub mod visit;

ghost use Rattle.std.specs.Prelude.{◌≡◌, ◌+◌, ◌*◌, ◌≤◌, length};
ghost use Rattle.rules.specs.Sizes.{row_size};
ghost use Rattle.rules.specs.Median.{common, median, medians, connection};
ghost use Rattle.types.specs.State.{stored_at};
ghost use Rattle.distances.specs.Area.{Weighed};
ghost use Rattle.medians.specs.Cost.{cost_at};

use rules::ROW;

// The state that two or more of own, second and third hold, and own where all three differ: if second and third differ, it is own
// either way.
fn pick(own: u8, second: u8, third: u8) -> u8
    ensures { result ≡ common own own second third }
{
    if second == third { second } else { own }
}

// The median vector of types x, y and z that takes the state of type x where all three differ.
fn median(states: &[u8], x: usize, y: usize, z: usize) -> [u8; ROW]
    requires { (row_size * x + row_size ≤ length states.now) × (row_size * y + row_size ≤ length states.now) × (row_size * z + row_size ≤ length states.now) }
    ensures { result ≡ median (stored_at states.now x) (stored_at states.now x) (stored_at states.now y)
        (stored_at states.now z) }
{
    let own = ROW * x;
    let second = ROW * y;
    let third = ROW * z;
    // `array::from_fn` proves too, but the check cannot write its statements then
    let mut row = [0u8; ROW];
    for c in 0..ROW {
        row[c] = pick(states[own + c], states[second + c], states[third + c]);
    }
    row
}

// The three median vectors of types u, v and w.
pub fn medians(states: &[u8], u: usize, v: usize, w: usize) -> [[u8; ROW]; 3]
    requires { (row_size * u + row_size ≤ length states.now) × (row_size * v + row_size ≤ length states.now) × (row_size * w + row_size ≤ length states.now) }
    ensures { result ≡ medians (stored_at states.now u) (stored_at states.now v) (stored_at states.now w) }
{
    [
        median(states, u, v, w),
        median(states, v, u, w),
        median(states, w, u, v),
    ]
}

// Their connection cost, the same for all three: a character in which two of the types differ costs its weight, and one in which
// all three differ costs it twice.
pub fn connection(states: &[u8], weights: &[u16], u: usize, v: usize, w: usize) -> usize
    requires { Weighed weights.now × (row_size * u + row_size ≤ length states.now) × (row_size * v + row_size ≤ length states.now) × (row_size * w + row_size ≤ length states.now) }
    ensures { result ≡ cost_at weights.now states.now u v w }
{
    let first = ROW * u;
    let second = ROW * v;
    let third = ROW * w;
    let mut cost = 0u32;
    for c in 0..ROW {
        let weight = u32::from(weights[c]);
        let a = states[first + c];
        let b = states[second + c];
        let d = states[third + c];
        if a != b {
            cost += weight;
        }
        if a != d && b != d {
            cost += weight;
        }
    }
    cost as usize
}
