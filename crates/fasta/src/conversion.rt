// The corner of what a FASTA text is answered: a job block, or one of the refusals 20 to 26, and its number, its place and the bytes used.

ghost use Rattle.fasta.specs.Answers.{ToldConversion};

use answers::{Told, refusal};

// The refusals 20 to 26, in their order.
#[derive(Clone, Copy, Debug, PartialEq, Eq)]
pub enum Fault {
    Short,
    Before { place: usize },
    Byte { place: usize },
    Wide { place: usize },
    Many { place: usize },
    Empty { place: usize },
    Uneven { place: usize },
}

// What a text is answered: a job block of so many bytes, or its refusal.
pub type Conversion = Result<usize, Fault>;

// Its number, its place, and the bytes used. (No `From`: neither `Result` nor `Told` is this crate's own.)
pub fn tell_conversion(conversion: Conversion) -> Told
    ensures { ToldConversion conversion result }
{
    match conversion {
        Ok(used) => Told {
            number: 0,
            place: 0,
            used,
        },
        Err(Fault::Short) => refusal(20, 0),
        Err(Fault::Before { place }) => refusal(21, place),
        Err(Fault::Byte { place }) => refusal(22, place),
        Err(Fault::Wide { place }) => refusal(23, place),
        Err(Fault::Many { place }) => refusal(24, place),
        Err(Fault::Empty { place }) => refusal(25, place),
        Err(Fault::Uneven { place }) => refusal(26, place),
    }
}
