// The static library for C and Rust: the call, the row lookup and the text under C's names; include/hurdlesong.h has the same words for C. What
// C links is a crate of its own, since no crate can import it. So each function passes on what `hurdlesong_c` says, word for word.

#![tactic(auto)]

ghost use Rattle.std.specs.Prelude.{length};
ghost use Rattle.lookup.specs.Places.{Points};
ghost use Rattle.hurdlesong_c.specs.Interface.{CallTold, TextTold};

use answers::Told;
use lookup::Place;
use rules::Link;

// Every job gets an answer: its number, its place and the bytes used.
#[unsafe(no_mangle)]
pub extern "C" fn hurdlesong_call(
    job: &[u8],
    res: &mut [u8],
    states: &mut [u8],
    distances: &mut [u16],
    links: &mut [Link],
) -> Told
    ensures { CallTold job.now res.old states.old distances.old links.old result res.new states.new distances.new links.new }
{
    hurdlesong_c::hurdlesong_call(job, res, states, distances, links)
}

// Where the states of a type lie, in the job or in the result block.
#[unsafe(no_mangle)]
pub extern "C" fn hurdlesong_states(job: &[u8], block: &[u8], number: usize) -> Place
    ensures { Points job.now block.now number result }
{
    hurdlesong_c::hurdlesong_states(job, block, number)
}

// The text of an answer, by the number and the place that were told of it: a network is printed from job and block, a refusal from these two.
#[unsafe(no_mangle)]
pub extern "C" fn hurdlesong_text<'a>(
    job: &'a [u8],
    block: &'a [u8],
    number: usize,
    place: usize,
    out: &mut [u8],
) -> Told
    ensures { TextTold job.now block.now number place (length out.old) out.new result }
{
    hurdlesong_c::hurdlesong_text(job, block, number, place, out)
}
