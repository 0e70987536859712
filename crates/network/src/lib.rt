// The room of the call: every job is answered. The result holds the network's block and zeros behind it, or zeros throughout; all work
// memory is zero to its end. The job is only read, and what lay in the memory before does not matter. Its corner (`draw`) runs a job that
// passed the checks and writes its network up to the links.

#![tactic(auto)]

pub mod draw;

ghost use Rattle.network.specs.Called.{Answered, Called, Linked, Unlinked};

use crate::draw::Sketch;
use answers::first_of;
use job::areas::check_areas;
use job::checks::check;
use memory::clear;
use result::table::{clear_links, list_links, put_links};
use rules::{Answer, Link, Refusal};

// The refusals in the order they are tried, or the network up to its links. So many records of the link table are lent.
fn refuse_or_draw(
    job: &[u8],
    res: &mut [u8],
    states: &mut [u8],
    distances: &mut [u16],
    links: usize,
) -> Result<Sketch, Refusal>
    ensures { Answered job.now res.old states.old distances.old links result res.new states.new distances.new }
{
    let areas = check_areas(res.len(), states.len(), distances.len(), links);
    first_of(areas, check(job))?;
    draw::draw(job, res, states, distances)
}

// All that the call does but for the links and the areas that they are in.
fn sketch(
    job: &[u8],
    res: &mut [u8],
    states: &mut [u8],
    distances: &mut [u16],
    links: usize,
) -> Result<Sketch, Refusal>
    ensures { Unlinked job.now res.old states.old distances.old links result res.new states.new distances.new }
{
    clear(res, 0);
    let sketch = refuse_or_draw(job, res, states, distances, links);
    clear(states, 0);
    sketch
}

// The links go from the distance area to the table lent, and from there to the result.
fn sketch_and_link(
    job: &[u8],
    res: &mut [u8],
    states: &mut [u8],
    distances: &mut [u16],
    links: &mut [Link],
) -> Answer
    ensures { Linked job.now res.old states.old distances.old links.old result res.new states.new distances.new links.new }
{
    let drawn = sketch(job, res, states, distances, links.len())?;
    list_links(distances, drawn.types, drawn.links, links);
    put_links(links, drawn.links, res, drawn.at);
    Ok(drawn.used)
}

// Every job, however damaged, gets an answer.
pub fn call(
    job: &[u8],
    res: &mut [u8],
    states: &mut [u8],
    distances: &mut [u16],
    links: &mut [Link],
) -> Answer
    ensures { Called job.now res.old states.old distances.old links.old result res.new states.new distances.new links.new }
{
    let answer = sketch_and_link(job, res, states, distances, links);
    clear_links(links);
    clear(distances, 0);
    answer
}
