// The corner of settled triplets: whether every median vector of a triplet is known to be a row made, told without making one. The mismatches
// of the triplet's pairs tell in which characters a median vector has the states of which type, so a row made is known to be the vector
// by its mismatches with two of the types. Which row to try is guessed by the table of hints.

ghost use Rattle.std.specs.Prelude.{◌≡◌, true, ◌*◌, ◌≤◌, ◌<◌, length};
ghost use Rattle.rules.specs.Sizes.{most_types, row_size};
ghost use Rattle.triplets.specs.Mismatches.{Narrow, Cached, mismatches_in, PairTable, hints_size};
ghost use Rattle.triplets.specs.Settled.{alone_in, Mixed, PairsOf, Settled};

use crate::Triplet;
use crate::hints::{HINTS, guess};
use crate::mismatches::mismatches_of;
use rules::LINE;

// The mismatches of a triplet's pairs.
#[derive(Clone, Copy)]
struct Pairs {
    uv: u64,
    uw: u64,
    vw: u64,
}

// Where the first of three rows differs from both others, and these agree.
fn alone(uv: u64, uw: u64, vw: u64) -> u64
    ensures { result ≡ alone_in uv uw vw }
{
    let both = uv & uw;
    both - (both & vw)
}

// The rows made: their states, no more than m characters of which are in use, and the hints which of them to try.
#[derive(Clone, Copy)]
struct Made<'a> {
    states: &'a [u8],
    hints: &'a [u64],
    m: usize,
    made: usize,
    ghost narrow: { Narrow states.now made m },
    ghost hinted: { hints_size ≤ length hints.now },
}

impl Made<'_> {
    // The mismatches of rows i and j, kept or made now.
    fn apart(&self, mismatches: &mut [u64], i: usize, j: usize) -> u64
        requires { PairTable self.now.states.now self.now.m self.now.made mismatches.old × (i < self.now.made) × (j < self.now.made) }
        ensures { (result ≡ mismatches_in self.now.states.now self.now.m i j) × PairTable self.now.states.now self.now.m self.now.made mismatches.new
            × (length mismatches.new ≡ length mismatches.old) }
    {
        mismatches_of(self.states, mismatches, self.m, self.made, i, j)
    }

    // Whether a row made is known to have the states of row v in the characters of k, and those of row u in the others.
    fn has_mixed(&self, mismatches: &mut [u64], u: usize, v: usize, k: u64) -> bool
        requires { PairTable self.now.states.now self.now.m self.now.made mismatches.old × (u < self.now.made) × (v < self.now.made) }
        ensures { (result ≡ true → Mixed self.now.states.now self.now.m self.now.made u v k) × PairTable self.now.states.now self.now.m self.now.made mismatches.new
            × (length mismatches.new ≡ length mismatches.old) }
    {
        if k == 0 {
            // row u itself
            return true;
        }
        let x = guess(self.hints, u, v, k);
        if self.made <= x {
            return false;
        }
        if self.apart(mismatches, u, x) != k {
            return false;
        }
        self.apart(mismatches, v, x) & k == 0
    }

    fn pairs_of(&self, mismatches: &mut [u64], t: Triplet) -> Pairs
        requires { PairTable self.now.states.now self.now.m self.now.made mismatches.old × (t.u < self.now.made) × (t.v < self.now.made) × (t.w < self.now.made) }
        ensures { PairsOf self.now.states.now self.now.m t result × PairTable self.now.states.now self.now.m self.now.made mismatches.new
            × (length mismatches.new ≡ length mismatches.old) }
    {
        let uv = self.apart(mismatches, t.u, t.v);
        let uw = self.apart(mismatches, t.u, t.w);
        let vw = self.apart(mismatches, t.v, t.w);
        Pairs { uv, uw, vw }
    }

    // Whether the three median vectors are known to be rows made: where all three types differ they have u's states, v's and w's.
    fn has_three(&self, mismatches: &mut [u64], t: Triplet, p: Pairs) -> bool
        requires { PairTable self.now.states.now self.now.m self.now.made mismatches.old × (t.u < self.now.made) × (t.v < self.now.made) × (t.w < self.now.made)
            × PairsOf self.now.states.now self.now.m t p }
        ensures { (result ≡ true → Settled self.now.states.now self.now.made t) × PairTable self.now.states.now self.now.m self.now.made mismatches.new
            × (length mismatches.new ≡ length mismatches.old) }
    {
        let k = alone(p.uv, p.uw, p.vw);
        if !self.has_mixed(mismatches, t.u, t.v, k) {
            return false;
        }
        let l = alone(p.uv, p.vw, p.uw);
        if !self.has_mixed(mismatches, t.v, t.u, l) {
            return false;
        }
        let n = alone(p.uw, p.vw, p.uv);
        self.has_mixed(mismatches, t.w, t.u, n)
    }
}

// Whether every median vector of a triplet is known to be a row made. Where there is no room for mismatches or hints, no triplet is.
pub fn settled(
    states: &[u8],
    mismatches: &mut [u64],
    hints: &[u64],
    m: usize,
    made: usize,
    t: Triplet,
) -> bool
    requires { Narrow states.now made m × Cached states.now m made mismatches.old × (made ≤ most_types) × (row_size * made ≤ length states.now)
        × (t.u < made) × (t.v < made) × (t.w < made) }
    ensures { (result ≡ true → Settled states.now made t) × Cached states.now m made mismatches.new
        × (length mismatches.new ≡ length mismatches.old) }
{
    if mismatches.len() < LINE * made {
        return false;
    }
    if hints.len() < HINTS {
        return false;
    }
    let rows = Made {
        states,
        hints,
        m,
        made,
    };
    let p = rows.pairs_of(mismatches, t);
    let all = p.uv & p.uw & p.vw;
    if all == 0 {
        // in every character two of the types agree, so the median vectors are one
        let k = alone(p.uv, p.uw, p.vw);
        return rows.has_mixed(mismatches, t.u, t.v, k);
    }
    rows.has_three(mismatches, t, p)
}
