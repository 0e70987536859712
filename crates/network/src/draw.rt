// The corner of the drawing: a job that passed checks 1 to 7 is run, and its network written to the result up to its links; or 8 or 9 refuses
// it. It writes the state area and the distance area, and the front of the result.

ghost use Rattle.std.specs.Prelude.{◌≡◌, ◌≤◌, length};
ghost use Rattle.rules.specs.Sizes.{result_area, state_area, distance_area};
ghost use Rattle.rules.specs.Answers.{number};
ghost use Rattle.rules.specs.Job.{checked};
ghost use Rattle.network.specs.Drawn.{Drawn};

use job::header_of;
use result::write_front;
use rules::{LINK_SIZE, Refusal};
use run::run;

// A network that lacks only its links: how many bytes its block takes, its types, how many links there are, and where in the result they go.
#[derive(Clone, Copy)]
pub struct Sketch {
    pub used: usize,
    pub types: usize,
    pub links: usize,
    pub at: usize,
}

// The network of a job that passed checks 1 to 7, run and then written; or the refusals 8 and 9.
pub fn draw(
    job: &[u8],
    res: &mut [u8],
    states: &mut [u8],
    distances: &mut [u16],
) -> Result<Sketch, Refusal>
    requires { (number (checked job.now) ≡ 0) × (result_area ≤ length res.old) × (state_area ≤ length states.old) × (distance_area ≤ length distances.old) }
    ensures { Drawn job.now res.old states.old distances.old result res.new states.new distances.new }
{
    let held = run(job, states, distances)?;
    let header = header_of(job);
    let front = write_front(states, distances, header.width, held, res);
    let used = front.at + LINK_SIZE * front.links;
    let sketch = Sketch {
        used,
        types: held.state.types,
        links: front.links,
        at: front.at,
    };
    Ok(sketch)
}
