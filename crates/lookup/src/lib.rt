// The room of the row lookup: the states of a type as a part of the caller's job or of the caller's result block, and where that part
// lies, in numbers. Any job, any block and any number may be asked about, damaged ones too. It alters nothing.

#![tactic(auto)]

pub mod matching;

ghost use Rattle.std.specs.Prelude.{◌≡◌, true, ◌+◌, ◌≤◌, length, take, drop};
ghost use Rattle.rules.specs.Lookup.{lookup};
ghost use Rattle.lookup.specs.Match.{matches};
ghost use Rattle.lookup.specs.Places.{Points};

use crate::matching::block_matches;
use memory::word_at;
use rules::{JOB_HEAD, RECORD_SIZE, RECORDS_OFFSET};

// Where the states of a type lie: in the job (1), in the result block (2) or nowhere (0); from which byte on; how many. Numbers, since C
// programs read them.
#[repr(C)]
#[derive(Clone, Copy)]
pub struct Place {
    pub source: usize,
    pub at: usize,
    pub length: usize,
}

const NOWHERE: Place = Place {
    source: 0,
    at: 0,
    length: 0,
};

// Where the states of a type lie in a job and a block that match.
fn place_in(job: &[u8], block: &[u8], number: usize) -> Place
    requires { matches job.now block.now ≡ true }
    ensures { Points job.now block.now number result }
{
    let m = word_at(job, 2);
    let t = word_at(block, 0);
    let s = word_at(block, 2);
    if t <= number {
        return NOWHERE;
    }
    let place = word_at(block, RECORDS_OFFSET + RECORD_SIZE * number + 2);
    if number < s {
        if word_at(job, 0) <= place {
            return NOWHERE;
        }
        let at = JOB_HEAD + 2 * m + place * m;
        return Place {
            source: 1,
            at,
            length: m,
        };
    }
    if t - s <= place {
        return NOWHERE;
    }
    let at = RECORDS_OFFSET + RECORD_SIZE * t + place * m;
    Place {
        source: 2,
        at,
        length: m,
    }
}

// Where the states of a type lie, or nowhere where the rules hand back none (RULES 14.2).
pub fn place_of(job: &[u8], block: &[u8], number: usize) -> Place
    ensures { Points job.now block.now number result }
{
    if !block_matches(job, block) {
        return NOWHERE;
    }
    place_in(job, block, number)
}

// m bytes from a place on.
fn part<'a>(b: &'a [u8], at: usize, m: usize) -> &'a [u8]
    requires { at + m ≤ length b.now }
    ensures { result.now ≡ take m (drop at b.now) }
{
    let end = at + m;
    &b[at..end]
}

// The states at the place of a type. The number is for the contract alone, and nowhere is no byte of the job.
fn part_at<'a>(job: &'a [u8], block: &'a [u8], number: usize, place: Place) -> &'a [u8]
    requires { Points job.now block.now number place }
    ensures { result.now ≡ lookup job.now block.now number }
{
    if place.source == 2 {
        return part(block, place.at, place.length);
    }
    part(job, place.at, place.length)
}

// The states of a type where job and block match.
pub fn states_in<'a>(job: &'a [u8], block: &'a [u8], number: usize) -> &'a [u8]
    requires { matches job.now block.now ≡ true }
    ensures { result.now ≡ lookup job.now block.now number }
{
    part_at(job, block, number, place_in(job, block, number))
}

// The states of a type, or an empty part where the rules hand back none (RULES 14.2).
pub fn states_of<'a>(job: &'a [u8], block: &'a [u8], number: usize) -> &'a [u8]
    ensures { result.now ≡ lookup job.now block.now number }
{
    part_at(job, block, number, place_of(job, block, number))
}
