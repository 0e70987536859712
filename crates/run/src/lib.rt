// The room of the run: Phase I at epsilon until there is no candidate, then Phase II at epsilon 0. What is left in the state area, in
// the distance area and in the state of the run is the network; after a refusal both areas are zero. Its corner is how a run begins
// (`start`). The job is only read.

#![tactic(auto)]

pub mod start;

ghost use Rattle.std.specs.Prelude.{◌≡◌, ◌≤◌, length};
ghost use Rattle.rules.specs.Sizes.{state_area, distance_area};
ghost use Rattle.rules.specs.Answers.{number};
ghost use Rattle.rules.specs.Job.{checked};
ghost use Rattle.run.specs.Phases.{Safe, PhaseOneOver, PhasesOver};
ghost use Rattle.run.specs.Ran.{Ran};

use crate::start::begin;
use job::header_of;
use memory::clear;
use purge::state::Held;
use round::candidates::NoRoom;
use round::round;
use rules::Refusal;

// RULES 12.1: Phase I: a purge and a round, turn after turn, until there is no candidate. The state that it leaves is that of its last
// purge.
fn phase_one(
    states: &mut [u8],
    area: &mut [u16],
    weights: &[u16],
    held: &mut Held,
) -> Result<(), NoRoom>
    requires { Safe weights.now states.old area.old held.old }
    ensures { PhaseOneOver weights.now states.old area.old held.old states.new area.new held.new result }
{
    loop {
        *held = purge::purge(states, area, *held);
        match round(states, area, weights, *held)? {
            Some(next) => *held = next,
            None => return Ok(()),
        }
    }
}

// RULES 12: Phase I, or no room in one of its rounds, and then nothing is left; and then Phase II.
fn phases(states: &mut [u8], area: &mut [u16], weights: &[u16], held: Held) -> Result<Held, Refusal>
    requires { Safe weights.now states.old area.old held }
    ensures { PhasesOver weights.now states.old area.old held states.new area.new result }
{
    let mut last = held;
    if let Err(NoRoom) = phase_one(states, area, weights, &mut last) {
        clear(states, 0);
        clear(area, 0);
        return Err(Refusal::Room {
            place: last.state.rounds + 1,
        });
    }
    let two = Held {
        state: last.state.second_phase(),
        ..last
    };
    Ok(purge::purge(states, area, two))
}

// The run of a job that passed checks 2 to 7.
pub fn run(job: &[u8], states: &mut [u8], area: &mut [u16]) -> Result<Held, Refusal>
    requires { (number (checked job.now) ≡ 0) × (state_area ≤ length states.old) × (distance_area ≤ length area.old) }
    ensures { Ran job.now (length states.old) (length area.old) states.new area.new result }
{
    let header = header_of(job);
    let weights = job::weights(job, header.width);
    let first = begin(job, states, area, &weights)?;
    phases(states, area, &weights, first)
}
