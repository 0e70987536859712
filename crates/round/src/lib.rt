// The room of the round (RULES 11): from one state of the run to the next. The new types stand behind the current ones; the rows of the
// retired ones move up. Its corners choose the rows that are added: two sweeps (`candidates`), the order of the rows
// (`ascending`), and the memory that both need (`fresh`). It writes the state area and the distance area.

#![tactic(auto)]

pub mod ascending;
pub mod candidates;
pub mod fresh;

ghost use Rattle.std.specs.Prelude.{◌≡◌, ◌++◌, ◌+◌, ◌*◌, ◌≤◌, length, take};
ghost use Rattle.rules.specs.Sizes.{most_types, row_size, state_area, distance_area};
ghost use Rattle.memory.specs.Placed.{placed};
ghost use Rattle.distances.specs.Area.{Weighed};
ghost use Rattle.purge.specs.State.{epsilon_of};
ghost use Rattle.round.specs.Grown.{kinds_with, Grew};
ghost use Rattle.round.specs.Rounded.{Rounded};
ghost use Rattle.types.specs.State.{rows_from};

use crate::candidates::{Added, NoRoom};
use distances::measure;
use memory::copy;
use purge::state::Held;
use rules::{Kind, MOST_TYPES, Origin, ROW, STATE_AREA};

// The rows added go between the t current ones and those retired. They are taken by value: lent, and with copy_within for those retired,
// a small job takes 9% more instructions.
fn insert_rows(states: &mut [u8], rows: [u8; STATE_AREA], count: usize, t: usize, made: usize)
    requires { (t ≤ made) × (made + count ≤ most_types) × (length rows ≡ state_area) × (state_area ≤ length states.old) }
    ensures { states.new ≡ placed states.old (row_size * t) (take (row_size * count) rows ++ rows_from states.old t made) }
{
    let mut all = rows;
    let from = ROW * t;
    let to = ROW * made;
    copy(&states[from..to], &mut all, ROW * count);
    let size = ROW * count + to - from;
    copy(&all[..size], states, from);
}

// The kinds of the types added in a round.
fn put_kinds(kinds: [Kind; MOST_TYPES], t: usize, count: usize, round: usize) -> [Kind; MOST_TYPES]
    requires { (t + count ≤ most_types) × (length kinds ≡ most_types) }
    ensures { result ≡ kinds_with kinds t count round }
{
    let mut all = kinds;
    all[t..t + count].fill(Kind {
        origin: Origin::Inferred { round },
    });
    all
}

// So many rows are added.
fn add_types(
    states: &mut [u8],
    area: &mut [u16],
    weights: &[u16],
    held: Held,
    rows: [u8; STATE_AREA],
    count: usize,
) -> Held
    requires { Weighed weights.now × (held.state.types ≤ held.state.made) × (held.state.made + count ≤ most_types)
        × (held.state.rounds ≤ held.state.made) × (length held.kinds ≡ most_types) × (length rows ≡ state_area)
        × (state_area ≤ length states.old) × (distance_area ≤ length area.old) }
    ensures { Grew weights.now states.old area.old held rows count states.new area.new result }
{
    let Held { state, kinds } = held;
    let t = state.types;
    insert_rows(states, rows, count, t, state.made);
    measure(states, area, weights, t, t + count);
    Held {
        state: state.grown(count),
        kinds: put_kinds(kinds, t, count, state.rounds + 1),
    }
}

// A round: all candidates of a cost of at most lambda and epsilon are added. The links of the current types stand in the area. Hands
// back the run's next state, or none where there is no candidate. Where there is none, or no room for them, everything is as it was. It is
// not compiled into its caller: a call whose job is refused before any round would take the memory of one, too.
#[inline(never)]
pub fn round(
    states: &mut [u8],
    area: &mut [u16],
    weights: &[u16],
    held: Held,
) -> Result<Option<Held>, NoRoom>
    requires { Weighed weights.now × (held.state.types ≤ held.state.made) × (held.state.made ≤ most_types)
        × (held.state.rounds ≤ held.state.made) × (length held.kinds ≡ most_types) × (epsilon_of held.state.phase ≤ 65535)
        × (state_area ≤ length states.old) × (distance_area ≤ length area.old) }
    ensures { Rounded weights.now states.old area.old held states.new area.new result }
{
    let state = held.state;
    let Added { rows, count } = fresh::fresh(
        states,
        area,
        weights,
        state.types,
        state.made,
        state.epsilon(),
    )?;
    if count == 0 {
        return Ok(None);
    }
    let next = add_types(states, area, weights, held, rows, count);
    Ok(Some(next))
}
