// The room of the purge (RULES 8): pass after pass, until nothing is obsolete. A type that goes is retired: its row moves behind the rows
// of all types made and stays known. Its corners: the run's small state (`state`), which types stay (`stay`), what is left when the others
// go (`retire`). It writes the state area and the distance area.

#![tactic(auto)]

pub mod retire;
pub mod state;
pub mod stay;

ghost use Rattle.std.specs.Prelude.{◌≤◌, length};
ghost use Rattle.rules.specs.Sizes.{most_types, state_area, distance_area};
ghost use Rattle.purge.specs.Left.{Chosen};
ghost use Rattle.purge.specs.State.{epsilon_of};
ghost use Rattle.purge.specs.Once.{Once, Surveyed};
ghost use Rattle.purge.specs.Holds.{Purged};

use crate::retire::{distances_left, kinds_left, rows_left};
use crate::state::Held;
use crate::stay::{Stay, survivors};
use links::find_links;

// RULES 8.2: one pass. The types at the places of `stay` stay, the others go.
fn purge_once(states: &mut [u8], area: &mut [u16], held: Held, stay: Stay) -> Held
    requires { Chosen stay.kept stay.count held.state.types × (held.state.types ≤ held.state.made) × (held.state.made ≤ most_types) × (state_area ≤ length states.old) × (distance_area ≤ length area.old) }
    ensures { Once states.old area.old held stay states.new area.new result }
{
    let Held { state, kinds } = held;
    let Stay { kept, count } = stay;
    rows_left(states, &kept, count, state.types, state.made);
    distances_left(area, &kept, count, state.types);
    Held {
        state: state.keeping(count),
        kinds: kinds_left(kinds, &kept, count),
    }
}

// The links of the current types at the phase's epsilon, and which types stay by them.
fn survey(area: &mut [u16], held: Held) -> Stay
    requires { (held.state.types ≤ most_types) × (epsilon_of held.state.phase ≤ 65535) × (distance_area ≤ length area.old) }
    ensures { Surveyed area.old held area.new result }
{
    let Held { state, kinds } = held;
    find_links(area, state.types, state.epsilon());
    survivors(area, state.types, kinds)
}

// RULES 8.2: passes until nothing is obsolete, each with links of its own.
pub fn purge(states: &mut [u8], area: &mut [u16], held: Held) -> Held
    requires { (held.state.types ≤ held.state.made) × (held.state.made ≤ most_types) × (epsilon_of held.state.phase ≤ 65535) × (state_area ≤ length states.old) × (distance_area ≤ length area.old) }
    ensures { Purged states.old area.old held states.new area.new result }
{
    let mut now = held;
    let mut stay = survey(area, now);
    // no count: a pass may make other types obsolete
    while stay.count < now.state.types {
        now = purge_once(states, area, now, stay);
        stay = survey(area, now);
    }
    now
}
