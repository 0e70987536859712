// The corner of the types that stay: an inferred type with at most two links is obsolete, and all others stay. It reads the distance area.

ghost use Rattle.std.specs.Prelude.{◌≡◌, ◌≤◌, ◌<◌, length};
ghost use Rattle.rules.specs.Sizes.{most_types, distance_area};
ghost use Rattle.purge.specs.Stay.{obsolete_in, staying, Stays};

use links::link_count;
use rules::{Kind, MOST_TYPES, Origin};

// The places of the types that stay, ascending, and how many they are: an array and a count, since there is no heap.
#[derive(Clone, Copy)]
pub struct Stay {
    pub kept: [usize; MOST_TYPES],
    pub count: usize,
}

// An inferred type with at most two links is obsolete. Sampled types never go, and their links are not counted.
fn obsolete(area: &[u16], t: usize, kind: Kind, i: usize) -> bool
    requires { (t ≤ most_types) × (i < t) × (distance_area ≤ length area.now) }
    ensures { result ≡ obsolete_in area.now t kind i }
{
    match kind.origin {
        Origin::Sampled { .. } => false,
        Origin::Inferred { .. } => link_count(area, t, i) <= 2,
    }
}

// Which of t types stay.
pub fn survivors(area: &[u16], t: usize, kinds: [Kind; MOST_TYPES]) -> Stay
    requires { (t ≤ most_types) × (distance_area ≤ length area.now) }
    ensures { Stays (staying area.now kinds t) result }
{
    let mut kept = [0usize; MOST_TYPES];
    let mut count = 0;
    for i in 0..t {
        if !obsolete(area, t, kinds[i], i) {
            kept[count] = i;
            count += 1;
        }
    }
    Stay { kept, count }
}
