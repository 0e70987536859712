// The corner of the links' order: how many links the distance area tells, and which comes next, ascending by lower, then higher number. It
// reads the marks and distances of the distance area and writes nothing.

ghost use Rattle.std.specs.Prelude.{◌≡◌, ◌≤◌, ◌<◌, length};
ghost use Rattle.rules.specs.Sizes.{most_types, distance_area};
ghost use Rattle.purge.specs.Network.{links_in};
ghost use Rattle.result.specs.Lines.{line_of, links_before, Reached};
ghost use Rattle.result.specs.Order.{HasNext, Next};

use links::linked;
use rules::{LINE, Link};

// How many types above type i, of t types, are linked with it.
fn count_line(area: &[u16], t: usize, i: usize) -> usize
    requires { (distance_area ≤ length area.now) × (t ≤ most_types) × (i < t) }
    ensures { result ≡ length (line_of area.now t i) }
{
    let mut n = 0;
    for j in i + 1..t {
        if linked(area, i, j) {
            n += 1;
        }
    }
    n
}

// How many links t types have.
pub fn count_links(area: &[u16], t: usize) -> usize
    requires { (distance_area ≤ length area.now) × (t ≤ most_types) }
    ensures { result ≡ length (links_in t area.now) }
{
    let mut n = 0;
    for i in 0..t {
        n += count_line(area, t, i);
    }
    n
}

// The first of t types, from one on, that is linked with type i; t if there is none, which is where the line ends.
fn next_in_line(area: &[u16], t: usize, i: usize, from: usize) -> usize
    requires { (distance_area ≤ length area.now) × (t ≤ most_types) × (i < from) × (from ≤ t) }
    ensures { Reached area.now t (links_before area.now t i from) i result }
{
    for j in from..t {
        if linked(area, i, j) {
            return j;
        }
    }
    t
}

// The link that comes next behind a link, or the first one behind none.
pub fn next_link(area: &[u16], t: usize, last: Link) -> Link
    requires { (distance_area ≤ length area.now) × (t ≤ most_types) × HasNext (links_in t area.now) last }
    ensures { Next (links_in t area.now) last result }
{
    let mut i = last.low as usize;
    let mut j = next_in_line(area, t, i, last.high as usize + 1);
    // no count: the next line that has a link is looked for
    while j == t {
        i += 1;
        j = next_in_line(area, t, i, i + 1);
    }
    Link {
        low: i as u16,
        high: j as u16,
        length: area[LINE * i + j],
    }
}
