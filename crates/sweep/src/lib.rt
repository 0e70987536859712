// The room of the sweep: all triplets of current types are gone through, and each candidate that they give is met. It reads the state
// area and the distance area.

#![tactic(auto)]

ghost use Rattle.std.specs.Prelude.{◌≡◌, true, ◌*◌, ◌≤◌, ◌<◌, min, length};
ghost use Rattle.triplets.specs.Triplet.{no_cost};
ghost use Rattle.rules.specs.Sizes.{most_types, row_size, distance_area};
ghost use Rattle.links.specs.Marks.{marked};
ghost use Rattle.sweep.specs.Candidate.{WithFirst, AtCentre, Remembered, Sweepable};
ghost use Rattle.sweep.specs.Floors.{met, Outlook, Passed, Floors, Surveyed};

use medians::search::Search;
use medians::visit::visit;
use rules::{LINE, MOST_TYPES};
use triplets::{FOLLOWERS_LINE, NO_COST, Triplet, cost_floor, in_order};

// How many characters are in use, and how many types are current.
#[derive(Clone, Copy)]
pub struct Size {
    pub width: usize,
    pub types: usize,
}

// What a round reads: the rows made, the distances and links of the current types, the weights, who is linked with whom, and the hints.
#[derive(Clone, Copy)]
pub struct Known<'a> {
    pub states: &'a [u8],
    pub area: &'a [u16],
    pub weights: &'a [u16],
    pub next: &'a [u16],
    pub hints: &'a [u64],
}

// What is met: the search has come to this, and no candidate met costs less than the floor.
#[derive(Clone, Copy)]
struct Met {
    search: Search,
    floor: usize,
}

// A type c, and the search that comes to it.
#[derive(Clone, Copy)]
struct Centre {
    size: Size,
    search: Search,
    c: usize,
}

// A type c and a type a linked with it, and what was met before.
#[derive(Clone, Copy)]
struct Pair {
    size: Size,
    met: Met,
    c: usize,
    a: usize,
}

// How far all triplets are searched: the search has come to this, and there is a floor for each type.
#[derive(Clone, Copy)]
pub struct Survey {
    pub size: Size,
    pub search: Search,
    pub floors: [usize; MOST_TYPES],
}

impl Survey {
    // Another search through the same triplets: the floors serve it too.
    pub fn again(mut self, search: Search) -> Self
        ensures { (result.size ≡ self.size) × (result.search ≡ search) × (result.floors ≡ self.floors) }
    {
        self.search = search;
        self
    }
}

// No candidate of a triplet costs less than this, by its distances; and where these leave a cost that matters, it is asked whether all
// its median vectors are rows made: then it has none, of any cost.
fn outlook(
    states: &[u8],
    area: &[u16],
    mismatches: &mut [u64],
    hints: &[u64],
    m: usize,
    made: usize,
    t: Triplet,
    below: usize,
) -> usize
    requires { Remembered states.now mismatches.old m made × (made ≤ most_types) × (row_size * made ≤ length states.now) × (distance_area ≤ length area.now)
        × (t.u < made) × (t.v < made) × (t.w < made) }
    ensures { Outlook states.now area.now made t result × Remembered states.now mismatches.new m made
        × (length mismatches.new ≡ length mismatches.old) }
{
    let least = cost_floor(area, t);
    if below <= least {
        return least;
    }
    if triplets::settled::settled(states, mismatches, hints, m, made, t) {
        return NO_COST;
    }
    least
}

// The triplets of type c and two types linked with it, of which a is the lower one. Where the two are linked with each other and a
// is below c, the triplet is met at type a.
fn with_first(
    known: &Known,
    mismatches: &mut [u64],
    gathered: &mut [u8],
    guesses: &mut [u16],
    pair: Pair,
) -> Met
    requires { Sweepable known.now.states.now known.now.area.now known.now.weights.now known.now.next.now mismatches.old gathered.old guesses.old pair.size pair.met.search
        × (pair.c < pair.size.types) × (pair.a < pair.size.types) × (marked known.now.area.now pair.c pair.a ≡ true) }
    ensures { Passed known.now.weights.now known.now.states.now known.now.area.now pair.size pair.met
        (WithFirst known.now.weights.now known.now.states.now known.now.area.now pair.size.types pair.met.search.made pair.c pair.a pair.size.types)
        mismatches.old gathered.old mismatches.new gathered.new guesses.new result }
{
    let states = known.states;
    let area = known.area;
    let weights = known.weights;
    let next = known.next;
    let hints = known.hints;
    let Pair { size, met, c, a } = pair;
    let Size { width: m, types: n } = size;
    let mut now = met.search;
    let mut low = met.floor;
    let mut b = next[FOLLOWERS_LINE * c + a + 1] as usize;
    // no count: the next type is the follower
    while b < n {
        if c < a || area[LINE * b + a] != 1 {
            let t = in_order(c, a, b);
            let least = outlook(states, area, mismatches, hints, m, now.made, t, now.below);
            low = low.min(least);
            if least < now.below {
                now = visit(states, weights, gathered, guesses, now, t);
            }
        }
        b = next[FOLLOWERS_LINE * c + b + 1] as usize;
    }
    Met {
        search: now,
        floor: low,
    }
}

// The triplets of type c and two types linked with it.
fn at_centre(
    known: &Known,
    mismatches: &mut [u64],
    gathered: &mut [u8],
    guesses: &mut [u16],
    at: Centre,
) -> Met
    requires { Sweepable known.now.states.now known.now.area.now known.now.weights.now known.now.next.now mismatches.old gathered.old guesses.old at.size at.search × (at.c < at.size.types) }
    ensures { Passed known.now.weights.now known.now.states.now known.now.area.now at.size (met at.search no_cost)
        (AtCentre known.now.weights.now known.now.states.now known.now.area.now at.size.types at.search.made at.c at.size.types)
        mismatches.old gathered.old mismatches.new gathered.new guesses.new result }
{
    let Centre { size, search, c } = at;
    let n = size.types;
    let mut met = Met {
        search,
        floor: NO_COST,
    };
    let mut a = known.next[FOLLOWERS_LINE * c] as usize;
    // no count: the next type is the follower
    while a < n {
        met = with_first(
            known,
            mismatches,
            gathered,
            guesses,
            Pair { size, met, c, a },
        );
        a = known.next[FOLLOWERS_LINE * c + a + 1] as usize;
    }
    met
}

// All triplets. A type is passed over where its floor says that nothing of a cost that matters is met there.
pub fn sweep(
    known: &Known,
    mismatches: &mut [u64],
    gathered: &mut [u8],
    guesses: &mut [u16],
    survey: Survey,
) -> Survey
    requires { Sweepable known.now.states.now known.now.area.now known.now.weights.now known.now.next.now mismatches.old gathered.old guesses.old survey.size survey.search
        × Floors known.now.weights.now known.now.states.now known.now.area.now survey.size.types survey.search.made survey.floors }
    ensures { Surveyed known.now.weights.now known.now.states.now known.now.area.now survey mismatches.old gathered.old
        mismatches.new gathered.new guesses.new result }
{
    let Survey {
        size,
        mut search,
        mut floors,
    } = survey;
    for c in 0..size.types {
        if floors[c] < search.below {
            let met = at_centre(
                known,
                mismatches,
                gathered,
                guesses,
                Centre { size, search, c },
            );
            search = met.search;
            floors[c] = met.floor;
        }
    }
    Survey {
        size,
        search,
        floors,
    }
}
