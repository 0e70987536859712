// The corner of the search: a median vector of a triplet is looked at, either for lambda, the least cost of any candidate, or to gather
// all candidates below a cost. It reads the state area; the rows gathered lie behind each other in memory of their own.

ghost use Rattle.std.specs.Prelude.{◌≡◌, ◌+◌, ◌*◌, ◌≤◌, ◌<◌, length};
ghost use Rattle.medians.specs.Guesses.{guesses_size};
ghost use Rattle.rules.specs.Sizes.{most_types, state_area};
ghost use Rattle.distances.specs.Area.{Weighed};
ghost use Rattle.medians.specs.Search.{for_lambda, for_all, lowered, filled, with_one, taken, gathered_after, Inside};
ghost use Rattle.medians.specs.Swept.{Gives, IsMedian, GivesRow, Swept};

use crate::connection;
use crate::guesses::{guessed, is_known};
use memory::copy;
use rules::{MOST_TYPES, ROW};
use triplets::Triplet;

// No connection cost is above 128,000.
pub const ABOVE_ALL_COSTS: usize = 128001;

// A search: only costs below this matter; so many rows were made, and so many candidates gathered since. When candidates are gathered
// and no room is left for one more, the search is full and looks for nothing more: no cost is below 0, so that loops ask for nothing else.
#[derive(Clone, Copy)]
pub struct Search {
    pub below: usize,
    pub made: usize,
    pub count: usize,
    pub gathering: bool,
    pub full: bool,
}

impl Search {
    // For lambda, of any cost: none is above 128,000.
    pub fn for_lambda(made: usize) -> Self
        ensures { result ≡ for_lambda made }
    {
        Search {
            below: ABOVE_ALL_COSTS,
            made,
            count: 0,
            gathering: false,
            full: false,
        }
    }

    // For all candidates of a cost below this.
    pub fn for_all(made: usize, below: usize) -> Self
        ensures { result ≡ for_all made below }
    {
        Search {
            below,
            made,
            count: 0,
            gathering: true,
            full: false,
        }
    }

    // A candidate of this cost is known of.
    fn lowered(mut self, cost: usize) -> Self
        ensures { result ≡ lowered self cost }
    {
        self.below = cost;
        self
    }

    // No room is left for one more.
    fn filled(mut self) -> Self
        ensures { result ≡ filled self }
    {
        self.below = 0;
        self.full = true;
        self
    }

    // One more was gathered.
    fn with_one(mut self) -> Self
        requires { self.count ≤ most_types }
        ensures { result ≡ with_one self }
    {
        self.count += 1;
        self
    }
}

// A candidate of a cost that matters is met: it lowers the cost looked for, or is put behind those gathered.
fn take(gathered: &mut [u8], search: Search, row: &[u8; ROW], cost: usize) -> Search
    requires { (search.made + search.count ≤ most_types) × (length gathered.old ≡ state_area) }
    ensures { (result ≡ taken search cost) × (gathered.new ≡ gathered_after gathered.old search row.now) }
{
    if !search.gathering {
        search.lowered(cost)
    } else if search.made + search.count == MOST_TYPES {
        search.filled()
    } else {
        copy(row, gathered, ROW * search.count);
        search.with_one()
    }
}

// One median vector of a triplet. Most are known, and most of those are guessed; the cost is asked for only if the guess is wrong.
pub fn consider(
    states: &[u8],
    weights: &[u16],
    gathered: &mut [u8],
    guesses: &mut [u16],
    search: Search,
    t: Triplet,
    row: &[u8; ROW],
) -> Search
    requires { Weighed weights.now × Inside states.now search t × IsMedian states.now t row.now × (length gathered.old ≡ state_area) × (length guesses.old ≡ guesses_size) }
    ensures { (length guesses.new ≡ guesses_size)
        × Swept (GivesRow weights.now states.now search.made t row.now)
        (Gives weights.now states.now search.made t) gathered.old search gathered.new result }
{
    if guessed(states, search.made, gathered, search.count, guesses, row) {
        return search;
    }
    let cost = connection(states, weights, t.u, t.v, t.w);
    if search.below <= cost {
        return search;
    }
    if is_known(states, search.made, gathered, search.count, guesses, row) {
        return search;
    }
    take(gathered, search, row, cost)
}
