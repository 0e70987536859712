// The room of spans: for every two types the longest step of a chain between them, in the chain where that is least. A cheapest
// tree grows over the types, nearest type first (Prim's order), and the span of two types is the longest of the steps by which
// the types behind the earlier one joined, up to the later one's. It reads the distances of the distance area and copies them to
// its mirror cells, so that a type's line holds all its distances. The spans are written to a lent area of their own.

#![tactic(auto)]

ghost use Rattle.std.specs.Prelude.{◌≡◌, ℕ, ◌+◌, ◌*◌, ◌≤◌, ◌<◌, min, max, length, get_or};
ghost use Rattle.rules.specs.Sizes.{most_types, line_size, distance_area};
ghost use Rattle.distances.specs.Area.{cell_at, CellsWritten, Line};
ghost use Rattle.spans.specs.Tree.{between, mirrored, Mirror, opposite, Spanned};
ghost use Rattle.spans.specs.Growth.{LinePart, Full, Filled, nearer, Least, OutsideAt, NearestFound, Makes, Lined, TreeGrown, Completed};

use rules::{LINE, MOST_TYPES};

// The mirror cell of two types. By a test: with max and min of the library the job R1 takes 1.3% more instructions.
pub fn mirrored(i: usize, j: usize) -> usize
    requires { (i < most_types) × (j < most_types) }
    ensures { result ≡ mirrored i j }
{
    if i < j { LINE * j + i } else { LINE * i + j }
}

// Loops over types run to a multiple of 16, in whole vectors.
fn lanes(n: usize) -> usize
    requires { n ≤ most_types }
    ensures { (n ≤ result) × (result ≤ most_types) }
{
    16 * n.div_ceil(16)
}

// The mirror cells of type j with the types from `from` to `to`.
fn mirror_part(area: &mut [u16], j: usize, from: usize, to: usize)
    requires { (j < most_types) × (from ≤ to) × (to ≤ j) × (distance_area ≤ length area.old) }
    ensures { CellsWritten (LinePart j from to) (opposite area.old) area.old area.new }
{
    for i in from..to {
        area[LINE * j + i] = area[LINE * i + j];
    }
}

// The mirror cells of type j, eight and eight.
fn mirror_line(area: &mut [u16], j: usize)
    requires { (j < most_types) × (distance_area ≤ length area.old) }
    ensures { CellsWritten (Line j j) (opposite area.old) area.old area.new }
{
    let parts = j / 8;
    for k in 0..parts {
        mirror_part(area, j, 8 * k, 8 * k + 8);
    }
    mirror_part(area, j, 8 * parts, j);
}

// The mirror cells of n types hold their distances.
fn mirror(area: &mut [u16], n: usize)
    requires { (n ≤ most_types) × (distance_area ≤ length area.old) }
    ensures { CellsWritten (Mirror n) (opposite area.old) area.old area.new }
{
    for j in 0..n {
        mirror_line(area, j);
    }
}

// None of n types is in the tree. The numbers behind them are no types, and count as if they were in it. Each is a number and no
// bool: a distance becomes the larger of the two, in whole vectors.
fn none_inside(n: usize) -> [u16; MOST_TYPES]
    requires { n ≤ most_types }
    ensures { (length result ≡ most_types) × ((u : ℕ) → u < n → get_or result u 0 ≡ 0)
        × ((u : ℕ) → n ≤ u → u < most_types → get_or result u 0 ≡ 65535) }
{
    let mut inside = [65535u16; MOST_TYPES];
    inside[..n].fill(0);
    inside
}

// Type v is in the tree now: other types may be nearer to it. The distance of the nearest one outside.
fn approach(
    area: &[u16],
    wide: usize,
    near: &mut [u16; MOST_TYPES],
    inside: &[u16; MOST_TYPES],
    v: usize,
) -> u16
    requires { (wide ≤ most_types) × (v < most_types) × (distance_area ≤ length area.now) }
    ensures { Filled wide (nearer v area.now near.old) near.old near.new
        × Least wide (λ u. max (nearer v area.now near.old u) (get_or inside.now u 0)) result }
{
    let from = LINE * v;
    let mut least = 65535u16;
    for u in 0..wide {
        let far = near[u].min(area[from + u]);
        near[u] = far;
        least = least.min(far.max(inside[u]));
    }
    least
}

// Type u, if it is outside at distance x, and else 0.
fn outside_at(near: u16, inside: u16, x: u16, u: u16) -> u16
    ensures { OutsideAt near inside x u result }
{
    if near == x && inside == 0 { u } else { 0 }
}

// The last type outside at distance x. All are looked at, in whole vectors, and 0 stands for none: a loop from the last type back that
// stops at the first one found takes 4% more instructions at the job w_rand_64_01.
fn find(wide: usize, near: &[u16; MOST_TYPES], inside: &[u16; MOST_TYPES], x: u16) -> usize
    requires { wide ≤ most_types }
    ensures { NearestFound wide near.now inside.now x result }
{
    let mut found = 0u16;
    for u in 0..wide {
        found = found.max(outside_at(near[u], inside[u], x, u as u16));
    }
    found as usize
}

// A step from type v: what is reached over it is as far as the step at least, and each cell of the line is made of what stood there
// and what is reached now.
fn step_line<F: Fn(u16, u16) -> u16>(
    spans: &mut [u16],
    wide: usize,
    reach: &mut [u16; MOST_TYPES],
    v: usize,
    step: u16,
    cell: F,
)
    requires { F.IsAlwaysCallable cell × (wide ≤ most_types) × (line_size * v + line_size ≤ length spans.old) }
    ensures { Filled wide (λ u. max (get_or reach.old u 0) step) reach.old reach.new
        × ((made : ℕ → ℕ → ℕ) → Makes (F.post cell) made
        → CellsWritten (Line v wide) (λ i u. made (cell_at spans.old i u) (max (get_or reach.old u 0) step)) spans.old spans.new) }
{
    let to = LINE * v;
    for u in 0..wide {
        let far = reach[u].max(step);
        reach[u] = far;
        spans[to + u] = cell(spans[to + u], far);
    }
}

// The tree grows: the order in which types join, their steps, and their spans with the types before them.
fn grow_tree(
    area: &[u16],
    spans: &mut [u16],
    n: usize,
    order: &mut [usize; MOST_TYPES],
    steps: &mut [u16; MOST_TYPES],
)
    requires { (n ≤ most_types) × Full n area.now
        × (distance_area ≤ length area.now) × (line_size * n ≤ length spans.old) }
    ensures { TreeGrown n area.now spans.old spans.new order.new steps.new }
{
    let wide = lanes(n);
    let mut near = [65535u16; MOST_TYPES];
    let mut inside = none_inside(n);
    let mut reach = [65535u16; MOST_TYPES];
    let mut v = 0;
    let mut step = 0;
    for size in 0..n {
        order[size] = v;
        steps[size] = step;
        step_line(spans, wide, &mut reach, v, step, |_, far| far);
        reach[v] = 0;
        inside[v] = 65535;
        step = approach(area, wide, &mut near, &inside, v);
        v = find(wide, &near, &inside, step);
    }
}

// The spans of each type with the types that joined behind it, from the last type back.
fn settle(spans: &mut [u16], n: usize, order: &[usize; MOST_TYPES], steps: &[u16; MOST_TYPES])
    requires { (n ≤ most_types) × Lined n order.now steps.now spans.old
        × (line_size * n ≤ length spans.old) }
    ensures { Completed n order.now steps.now spans.old spans.new }
{
    let wide = lanes(n);
    let mut reach = [65535u16; MOST_TYPES];
    for k in (1..n).rev() {
        let v = order[k];
        let before = order[k - 1];
        reach[v] = 0;
        step_line(
            spans,
            wide,
            &mut reach,
            before,
            steps[k],
            |old, far| far.min(old),
        );
    }
}

// The spans of n types, each in both of its cells, and their distances in both of theirs.
pub fn spans(area: &mut [u16], spans: &mut [u16], n: usize)
    requires { (n ≤ most_types) × (distance_area ≤ length area.old) × (line_size * n ≤ length spans.old) }
    ensures { CellsWritten (Mirror n) (opposite area.old) area.old area.new
        × Spanned n area.old spans.old spans.new }
{
    mirror(area, n);
    let mut order = [0usize; MOST_TYPES];
    let mut steps = [0u16; MOST_TYPES];
    grow_tree(area, spans, n, &mut order, &mut steps);
    settle(spans, n, &order, &steps);
}
