// The room of the interface for C and Rust: the call, the row lookup and the text, over numbers and slices. Each function passes on what
// the room below says; include/hurdlesong.h has the same words for C. A slice is a pointer and a length there. `hurdlesong_archive` hands these
// functions to C, under their names.

#![tactic(auto)]

ghost use Rattle.std.specs.Prelude.{length};
ghost use Rattle.lookup.specs.Places.{Points};
ghost use Rattle.hurdlesong_c.specs.Interface.{CallTold, TextTold};

use answers::{Told, tell};
use lookup::{Place, place_of};
use network::call;
use rules::Link;
use text::{refusal_text, tell_text, text};

// Every job gets an answer: its number, its place and the bytes used.
pub fn hurdlesong_call(
    job: &[u8],
    res: &mut [u8],
    states: &mut [u8],
    distances: &mut [u16],
    links: &mut [Link],
) -> Told
    ensures { CallTold job.now res.old states.old distances.old links.old result res.new states.new distances.new links.new }
{
    let answer = call(job, res, states, distances, links);
    tell(answer)
}

// Where the states of a type lie, in the job or in the result block.
pub fn hurdlesong_states(job: &[u8], block: &[u8], number: usize) -> Place
    ensures { Points job.now block.now number result }
{
    place_of(job, block, number)
}

// The text of an answer, by the number and the place that were told of it: a network is printed from job and block, a refusal from these two.
pub fn hurdlesong_text<'a>(
    job: &'a [u8],
    block: &'a [u8],
    number: usize,
    place: usize,
    out: &mut [u8],
) -> Told
    ensures { TextTold job.now block.now number place (length out.old) out.new result }
{
    if number == 0 {
        let printed = text(job, block, Ok(0), out);
        return tell_text(printed);
    }
    let printed = refusal_text(number, place, out);
    tell_text(printed)
}
