// The room of links: which types are linked at an epsilon, and with how many others. It reads the distances of the distance area
// and writes its mirror cells: 1 if the two types are linked, and else 0.

#![tactic(auto)]

ghost use Rattle.std.specs.Prelude.{◌≡◌, ◌+◌, ◌*◌, ◌≤◌, ◌<◌, length};
ghost use Rattle.rules.specs.Sizes.{most_types, line_size, distance_area};
ghost use Rattle.distances.specs.Area.{CellsWritten, Line};
ghost use Rattle.spans.specs.Tree.{Mirror};
ghost use Rattle.links.specs.Marks.{marked, mark_count, mark_of, mark, LinksFound};

use rules::{DISTANCE_AREA, LINE};
use spans::{mirrored, spans};

// The mark of two types: 1 if their distance is at most their span and epsilon together, and else 0. No sum is taken: it may be
// more than 16 bits hold.
fn mark_of(distance: u16, span: u16, epsilon: u16) -> u16
    ensures { result ≡ mark_of epsilon distance span }
{
    let need = distance.saturating_sub(epsilon);
    u16::from(need <= span)
}

// The marks of type j and the types before it.
fn mark_line(area: &mut [u16], spans: &[u16], epsilon: u16, j: usize)
    requires { (j < most_types) × (distance_area ≤ length area.old) × (line_size * j + line_size ≤ length spans.now) }
    ensures { CellsWritten (Line j j) (mark epsilon spans.now area.old) area.old area.new }
{
    let from = LINE * j;
    for i in 0..j {
        area[from + i] = mark_of(area[from + i], spans[from + i], epsilon);
    }
}

// The marks of n types whose mirror cells hold their distances.
fn mark(area: &mut [u16], spans: &[u16], n: usize, epsilon: u16)
    requires { (n ≤ most_types) × (distance_area ≤ length area.old) × (line_size * n ≤ length spans.now) }
    ensures { CellsWritten (Mirror n) (mark epsilon spans.now area.old) area.old area.new }
{
    for j in 0..n {
        mark_line(area, spans, epsilon, j);
    }
}

// The links of n types at epsilon, by their spans.
fn link(area: &mut [u16], all: &mut [u16], n: usize, epsilon: u16)
    requires { (n ≤ most_types) × (distance_area ≤ length area.old) × (line_size * n ≤ length all.old) }
    ensures { LinksFound n epsilon area.old area.new }
{
    spans(area, all, n);
    mark(area, all, n, epsilon);
}

// The links of n types at epsilon. The spans of few types get little room: what it holds at first does not matter, but is written.
pub fn find_links(area: &mut [u16], n: usize, epsilon: usize)
    requires { (epsilon ≤ 65535) × (n ≤ most_types) × (distance_area ≤ length area.old) }
    ensures { LinksFound n epsilon area.old area.new }
{
    if n <= 16 {
        let mut few = [256u16; 2048];
        link(area, &mut few, n, epsilon as u16);
    } else {
        let mut all = [256u16; DISTANCE_AREA];
        link(area, &mut all, n, epsilon as u16);
    }
}

// Whether two types are linked.
pub fn linked(area: &[u16], i: usize, j: usize) -> bool
    requires { (i < most_types) × (j < most_types) × (distance_area ≤ length area.now) }
    ensures { result ≡ marked area.now i j }
{
    i != j && area[mirrored(i, j)] == 1
}

// How many of the first n types are linked with type i, none of which is behind it: their marks stand in its line.
fn links_before(area: &[u16], n: usize, i: usize) -> u16
    requires { (n ≤ i) × (i < most_types) × (distance_area ≤ length area.now) }
    ensures { result ≡ mark_count area.now n i }
{
    let from = LINE * i;
    let mut links = 0;
    for j in 0..n {
        links += u16::from(area[from + j] == 1);
    }
    links
}

// How many of n types are linked with type i. The marks of the types behind it stand in its column.
pub fn link_count(area: &[u16], n: usize, i: usize) -> usize
    requires { (n ≤ most_types) × (i < most_types) × (distance_area ≤ length area.now) }
    ensures { result ≡ mark_count area.now n i }
{
    let mut links = links_before(area, i.min(n), i);
    for j in i + 1..n {
        links += u16::from(area[LINE * j + i] == 1);
    }
    links as usize
}
