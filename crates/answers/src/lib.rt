// The room of the answers: the number, the place and the bytes used of an answer, as RULES 4 has them.

#![tactic(auto)]

ghost use Rattle.std.specs.Prelude.{◌≡◌};
ghost use Rattle.answers.specs.Told.{Tells, ToldOf, first_of};

use rules::{Answer, Refusal};

// Numbers, laid out as in C, since C programs are told of an answer so.
#[repr(C)]
#[derive(Clone, Copy)]
pub struct Told {
    pub number: usize,
    pub place: usize,
    pub used: usize,
}

// A refusal has used no bytes.
pub fn refusal(number: usize, place: usize) -> Told
    ensures { Tells number place 0 result }
{
    Told {
        number,
        place,
        used: 0,
    }
}

pub fn tell(answer: Answer) -> Told
    ensures { ToldOf answer result }
{
    match answer {
        Ok(used) => Told {
            number: 0,
            place: 0,
            used,
        },
        Err(Refusal::Area) => refusal(1, 0),
        Err(Refusal::Head) => refusal(2, 0),
        Err(Refusal::Rows) => refusal(3, 0),
        Err(Refusal::Width) => refusal(4, 2),
        Err(Refusal::Layout { place }) => refusal(5, place),
        Err(Refusal::Weight { place }) => refusal(6, place),
        Err(Refusal::State { place }) => refusal(7, place),
        Err(Refusal::Types { place }) => refusal(8, place),
        Err(Refusal::Room { place }) => refusal(9, place),
        Err(Refusal::Split) => refusal(10, 0),
    }
}

// The first of two answers that refuses, or the second where neither does.
pub fn first_of(a: Answer, b: Answer) -> Answer
    ensures { result ≡ first_of a b }
{
    a.and(b)
}
