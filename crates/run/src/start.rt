// The corner of the beginning: the sampled types of a job lie in memory with their distances, or there are too many of them. It writes
// both areas from their first cell to their last; the job is only read.

ghost use Rattle.std.specs.Prelude.{◌≡◌, ◌≤◌, length};
ghost use Rattle.rules.specs.Sizes.{most_width, state_area, distance_area};
ghost use Rattle.rules.specs.Answers.{number};
ghost use Rattle.rules.specs.Job.{weights as weights_of, checked};
ghost use Rattle.rules.specs.Call.{padded};
ghost use Rattle.run.specs.Begun.{Begun};

use distances::measure;
use job::header_of;
use memory::clear;
use purge::state::{Held, Phase, State};
use rules::Refusal;
use types::sample::collapse;

// The run of a job that passed checks 2 to 7 begins, in Phase I and before its first link; or the refusal TYPES, and nothing is left.
pub fn begin(
    job: &[u8],
    states: &mut [u8],
    area: &mut [u16],
    weights: &[u16],
) -> Result<Held, Refusal>
    requires { (number (checked job.now) ≡ 0) × (weights.now ≡ padded most_width (weights_of job.now)) × (state_area ≤ length states.old) × (distance_area ≤ length area.old) }
    ensures { Begun job.now (length states.old) (length area.old) states.new area.new result }
{
    clear(states, 0);
    clear(area, 0);
    let header = header_of(job);
    match collapse(job, states, header.rows, header.width) {
        Err(many) => {
            clear(states, 0);
            Err(Refusal::Types { place: many.place })
        }
        Ok(sample) => {
            let types = sample.types;
            measure(states, area, weights, 0, types);
            let kinds = sample.kinds;
            Ok(Held {
                state: State {
                    types,
                    made: types,
                    rounds: 0,
                    phase: Phase::One {
                        epsilon: header.epsilon,
                    },
                },
                kinds,
            })
        }
    }
}
