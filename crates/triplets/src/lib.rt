// The room of triplets: who is linked with a type, one after the other, and which triplets can have a candidate. Its corners tell that
// all median vectors of a triplet were made (`settled`), by the characters in which rows differ (`mismatches`) and by guesses that are
// checked (`hints`). It reads the state area and the distance area.

#![tactic(auto)]

pub mod hints;
pub mod mismatches;
pub mod settled;

ghost use Rattle.std.specs.Prelude.{◌≡◌, ◌+◌, ◌≤◌, ◌<◌, length};
ghost use Rattle.rules.specs.Sizes.{most_types, distance_area};
ghost use Rattle.triplets.specs.Followers.{Follower, FollowLine, Followers, followers_size};
ghost use Rattle.triplets.specs.Triplet.{in_order, cost_floor};

use rules::{LINE, MOST_TYPES};

// A line of the table of followers: a place for each type, and one behind the last.
pub const FOLLOWERS_LINE: usize = MOST_TYPES + 1;

pub const FOLLOWERS: usize = MOST_TYPES * FOLLOWERS_LINE;

// More than any cost: what stands for no cost at all. (A number and no Option, as the least of many floors is looked for by comparing.)
pub const NO_COST: usize = 200000;

// Three types, ascending.
#[derive(Clone, Copy)]
pub struct Triplet {
    pub u: usize,
    pub v: usize,
    pub w: usize,
}

// Line c of the table above place c: at place i the first type from i on that is linked with type c, or n where none is. Types above
// c have their marks down column c. Hands back the first of them that is linked with c: a number and no Option, as the table holds.
fn follow_above(area: &[u16], next: &mut [u16], n: usize, c: usize) -> u16
    requires { (n ≤ most_types) × (c < n) × (distance_area ≤ length area.now) × (length next.old ≡ followers_size) }
    ensures { Follower area.now n c (c + 1) result
        × FollowLine area.now n c (c + 1) next.old next.new }
{
    let line = FOLLOWERS_LINE * c;
    let mut follower = n as u16;
    next[line + n] = follower;
    for i in (c + 1..n).rev() {
        if area[LINE * i + c] == 1 {
            follower = i as u16;
        }
        next[line + i] = follower;
    }
    follower
}

// The rest of line c, whose follower behind place c is known. Types below c have their marks along line c of the area.
fn follow_below(area: &[u16], next: &mut [u16], n: usize, c: usize, above: u16)
    requires { (n ≤ most_types) × (c < n) × (distance_area ≤ length area.now) × (length next.old ≡ followers_size)
        × Follower area.now n c (c + 1) above × FollowLine area.now n c (c + 1) next.old next.old }
    ensures { FollowLine area.now n c 0 next.old next.new }
{
    let line = FOLLOWERS_LINE * c;
    let marks = LINE * c;
    let mut follower = above;
    next[line + c] = follower;
    for i in (0..c).rev() {
        if area[marks + i] == 1 {
            follower = i as u16;
        }
        next[line + i] = follower;
    }
}

// For each of n types, and each place, the first type from there on that is linked with it; 129 places to a type.
pub fn followers(area: &[u16], next: &mut [u16], n: usize)
    requires { (n ≤ most_types) × (distance_area ≤ length area.now) × (length next.old ≡ followers_size) }
    ensures { Followers area.now n next.new }
{
    for c in 0..n {
        let above = follow_above(area, next, n, c);
        follow_below(area, next, n, c, above);
    }
}

// The triplet of types c, a and b, where a is below b.
pub fn in_order(c: usize, a: usize, b: usize) -> Triplet
    ensures { result ≡ in_order c a b }
{
    if c < a {
        Triplet { u: c, v: a, w: b }
    } else if c < b {
        Triplet { u: a, v: c, w: b }
    } else {
        Triplet { u: a, v: b, w: c }
    }
}

// No candidate of a triplet costs less than this, by its distances: half their sum. Where one type lies between the other two it is
// their only median vector, and there is no candidate: more than any cost.
pub fn cost_floor(area: &[u16], t: Triplet) -> usize
    requires { (t.u < most_types) × (t.v < most_types) × (t.w < most_types) × (distance_area ≤ length area.now) }
    ensures { result ≡ cost_floor area.now t }
{
    let Triplet { u, v, w } = t;
    let uv = area[LINE * u + v] as usize;
    let uw = area[LINE * u + w] as usize;
    let vw = area[LINE * v + w] as usize;
    if uv + vw == uw {
        return NO_COST;
    }
    if uv + uw == vw {
        return NO_COST;
    }
    if uw + vw == uv {
        return NO_COST;
    }
    (uv + uw + vw) / 2
}
