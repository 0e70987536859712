// The corner of visits: the median vectors of one triplet are met. It reads the state area.

ghost use Rattle.std.specs.Prelude.{◌≡◌, length};
ghost use Rattle.medians.specs.Guesses.{guesses_size};
ghost use Rattle.rules.specs.Sizes.{state_area};
ghost use Rattle.distances.specs.Area.{Weighed};
ghost use Rattle.medians.specs.Search.{Inside};
ghost use Rattle.medians.specs.Swept.{Gives, Swept};

use crate::guesses::alike;
use crate::medians;
use crate::search::{Search, consider};
use triplets::Triplet;

// The median vectors of a triplet. Where the first two are equal, all three are.
pub fn visit(
    states: &[u8],
    weights: &[u16],
    gathered: &mut [u8],
    guesses: &mut [u16],
    search: Search,
    t: Triplet,
) -> Search
    requires { Weighed weights.now × Inside states.now search t × (length gathered.old ≡ state_area) × (length guesses.old ≡ guesses_size) }
    ensures { (length guesses.new ≡ guesses_size)
        × Swept (Gives weights.now states.now search.made t) (Gives weights.now states.now search.made t)
        gathered.old search gathered.new result }
{
    let [first, second, third] = medians(states, t.u, t.v, t.w);
    let one = consider(states, weights, gathered, guesses, search, t, &first);
    if alike(&first, &second) {
        return one;
    }
    let two = consider(states, weights, gathered, guesses, one, t, &second);
    consider(states, weights, gathered, guesses, two, t, &third)
}
