// The corner of candidates: the sweep is made twice, once for lambda, the least cost of any candidate, and once for the candidates that
// the round adds. It reads the state area and the distance area.

ghost use Rattle.std.specs.Prelude.{◌≡◌, ◌≤◌, length, replicate};
ghost use Rattle.rules.specs.Sizes.{most_types, state_area};
ghost use Rattle.medians.specs.Guesses.{guesses_size};
ghost use Rattle.medians.specs.Search.{for_lambda};
ghost use Rattle.sweep.specs.Candidate.{Remembered};
ghost use Rattle.round.specs.Fresh.{added_of, Choosing, LambdaSought, Fresh};

use crate::ascending::ascending;
use medians::guesses::guess_all;
use medians::search::{ABOVE_ALL_COSTS, Search};
use rules::{MOST_TYPES, STATE_AREA};
use sweep::{Known, Size, Survey, sweep};

// The rows that a round adds, ascending, with zeros behind them: an array and a count, since there is no heap.
#[derive(Clone, Copy)]
pub struct Added {
    pub rows: [u8; STATE_AREA],
    pub count: usize,
}

// There are more rows to add than there is room for.
#[derive(Clone, Copy)]
pub struct NoRoom;

// A second sweep is within a window: what the first one came to, and epsilon.
#[derive(Clone, Copy)]
struct Window {
    least: Survey,
    epsilon: usize,
}

// Before the first sweep: lambda is looked for, and of the floors nothing is known.
fn seeking(size: Size, made: usize) -> Survey
    ensures { (result.size ≡ size) × (result.search ≡ for_lambda made) × (result.floors ≡ replicate most_types 0) }
{
    Survey {
        size,
        search: Search::for_lambda(made),
        floors: [0; MOST_TYPES],
    }
}

// The second sweep: all candidates of a cost of at most lambda and epsilon are gathered and put into order, in memory that is zero. Where
// there is no candidate, nothing is.
fn gather_window(
    known: &Known,
    mismatches: &mut [u64],
    rows: &mut [u8],
    guesses: &mut [u16],
    window: Window,
) -> Search
    requires { Choosing known.now.states.now known.now.area.now known.now.weights.now known.now.next.now window.least.size.types window.least.search.made × (window.epsilon ≤ 65535)
        × Remembered known.now.states.now mismatches.old window.least.size.width window.least.search.made × (length guesses.old ≡ guesses_size) × LambdaSought known.now.weights.now known.now.states.now known.now.area.now window.least × (rows.old ≡ replicate state_area 0) }
    ensures { Fresh known.now.weights.now known.now.states.now known.now.area.now window.least.size.types window.least.search.made window.epsilon (added_of rows.new result) }
{
    let least = window.least;
    let lambda = least.search.below;
    if lambda == ABOVE_ALL_COSTS {
        return Search::for_all(least.search.made, 0);
    }
    let search = Search::for_all(least.search.made, lambda + window.epsilon + 1);
    let all = sweep(known, mismatches, rows, guesses, least.again(search));
    ascending(rows, all.search.count);
    all.search
}

// All candidates of a cost of at most lambda and epsilon, each once, ascending by their bytes; who is linked with the current types is
// known.
pub fn choose(
    known: &Known,
    mismatches: &mut [u64],
    size: Size,
    made: usize,
    epsilon: usize,
) -> Result<Added, NoRoom>
    requires { Choosing known.now.states.now known.now.area.now known.now.weights.now known.now.next.now size.types made × (epsilon ≤ 65535) × Remembered known.now.states.now mismatches.old size.width made }
    ensures { Fresh known.now.weights.now known.now.states.now known.now.area.now size.types made epsilon result }
{
    // The rows are made before the guesses: behind them, they would be filled with zeros twice.
    let mut rows = [0u8; STATE_AREA];
    let mut guesses = guess_all(known.states, made);
    let least = sweep(
        known,
        mismatches,
        &mut rows,
        &mut guesses,
        seeking(size, made),
    );
    let all = gather_window(
        known,
        mismatches,
        &mut rows,
        &mut guesses,
        Window { least, epsilon },
    );
    if all.full {
        return Err(NoRoom);
    }
    Ok(Added {
        rows,
        count: all.count,
    })
}
