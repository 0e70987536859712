// The corner of fresh rows: the memory in which a round's rows are chosen. Who is linked with whom is found once; and where types have many
// links, mismatches and hints of the rows made are worth their making. It reads the state area and the distance area.

ghost use Rattle.std.specs.Prelude.{◌*◌, ◌≤◌, length};
ghost use Rattle.rules.specs.Sizes.{most_types, row_size, distance_area};
ghost use Rattle.distances.specs.Area.{Weighed};
ghost use Rattle.round.specs.Fresh.{Choosing, Fresh};

use crate::candidates::{Added, NoRoom, choose};
use links::link_count;
use rules::{DISTANCE_AREA, MOST_WIDTH};
use sweep::{Known, Size};
use triplets::hints::HINTS;
use triplets::{FOLLOWERS, followers};

// The rows that a round adds, with memory for mismatches and hints of the rows made.
fn choose_with_mismatches(
    states: &[u8],
    area: &[u16],
    weights: &[u16],
    next: &[u16],
    n: usize,
    made: usize,
    epsilon: usize,
) -> Result<Added, NoRoom>
    requires { Choosing states.now area.now weights.now next.now n made × (epsilon ≤ 65535) }
    ensures { Fresh weights.now states.now area.now n made epsilon result }
{
    let mut mismatches = [triplets::mismatches::UNKNOWN; DISTANCE_AREA];
    let mut hints = [1u64; HINTS];
    let m = triplets::mismatches::width_in_use(states, made);
    triplets::hints::hints(states, &mut hints, m, made);
    let size = Size { width: m, types: n };
    let known = Known {
        states,
        area,
        weights,
        next,
        hints: &hints,
    };
    choose(&known, &mut mismatches, size, made, epsilon)
}

// The same, with no memory for them: every triplet that can matter is visited. This is no other size of the function above, since there are
// no hints here, and large memory is made wherever a function begins that has it.
fn choose_without_mismatches(
    states: &[u8],
    area: &[u16],
    weights: &[u16],
    next: &[u16],
    n: usize,
    made: usize,
    epsilon: usize,
) -> Result<Added, NoRoom>
    requires { Choosing states.now area.now weights.now next.now n made × (epsilon ≤ 65535) }
    ensures { Fresh weights.now states.now area.now n made epsilon result }
{
    let mut mismatches = [triplets::mismatches::UNKNOWN; 1];
    let hints = [1u64; 1];
    let size = Size {
        width: MOST_WIDTH,
        types: n,
    };
    let known = Known {
        states,
        area,
        weights,
        next,
        hints: &hints,
    };
    choose(&known, &mut mismatches, size, made, epsilon)
}

// Whether the types have some four links each, so that mismatches of rows are worth their making: either answer is right. Of one type in four
// the links with the types below it are counted.
fn many_links(area: &[u16], n: usize) -> bool
    requires { (n ≤ most_types) × (distance_area ≤ length area.now) }
{
    let mut links = 0usize;
    for i in (0..n).step_by(4) {
        links += link_count(area, i, i);
    }
    n <= 2 * links
}

// The rows that a round adds, where n types are current.
pub fn fresh(
    states: &[u8],
    area: &[u16],
    weights: &[u16],
    n: usize,
    made: usize,
    epsilon: usize,
) -> Result<Added, NoRoom>
    requires { Weighed weights.now × (n ≤ made) × (made ≤ most_types) × (epsilon ≤ 65535) × (row_size * made ≤ length states.now) × (distance_area ≤ length area.now) }
    ensures { Fresh weights.now states.now area.now n made epsilon result }
{
    let mut next = [256u16; FOLLOWERS];
    followers(area, &mut next, n);
    if 16 <= n && many_links(area, n) {
        return choose_with_mismatches(states, area, weights, &next, n, made, epsilon);
    }
    choose_without_mismatches(states, area, weights, &next, n, made, epsilon)
}
