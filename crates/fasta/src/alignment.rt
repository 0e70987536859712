// The corner of the sequences of a FASTA text: how many there are, how long they are, and the refusals 21 to 26. The text is only read.

ghost use Rattle.std.specs.Prelude.{◌≡◌, true, ◌+◌, ◌≤◌, position, replicate};
ghost use Rattle.rules.specs.Sizes.{most_rows};
ghost use Rattle.rules.specs.Job.{outside};
ghost use Rattle.fasta.specs.Lines.{is_state, AtByte};
ghost use Rattle.fasta.specs.Sequences.{opened};
ghost use Rattle.fasta.specs.Read.{CountedTo, Taken, ReadAll, JobSizeOf};

use crate::conversion::Fault;
use crate::lines::{is_state, next_line, opens};
use job::contents::outside;
use rules::{FIRST_STATE, LAST_STATE, MOST_ROWS, MOST_WIDTH};

// The most states of a sequence, as a byte: lengths are counted in bytes.
const FULL: u8 = MOST_WIDTH as u8;

// How many sequences are opened before the next byte, when `begun` are before this one.
fn next_begun(text: &[u8], line: usize, i: usize, begun: usize) -> usize
    requires { AtByte text.now line i × (begun ≡ opened text.now i) × (begun ≤ most_rows) }
    ensures { result ≡ opened text.now (i + 1) }
{
    if opens(text, line, i) {
        return begun + 1;
    }
    begun
}

// Byte i is a state: the fault that it is, or none, and then it is counted.
fn take_state(text: &[u8], i: usize, begun: usize, lengths: &mut [u8]) -> Result<(), Fault>
    requires { (is_state text.now i ≡ true) × CountedTo text.now i begun lengths.old }
    ensures { Taken text.now i lengths.new result }
{
    if begun == 0 {
        return Err(Fault::Before { place: i });
    }
    let bad = outside(FIRST_STATE, LAST_STATE, text[i] as usize);
    let full = FULL <= lengths[begun - 1];
    if bad {
        return Err(Fault::Byte { place: i });
    }
    if full {
        return Err(Fault::Wide { place: i });
    }
    lengths[begun - 1] += 1;
    Ok(())
}

// Byte i is read: the fault that it is, or none; a state is counted.
fn take_byte(
    text: &[u8],
    line: usize,
    i: usize,
    begun: usize,
    lengths: &mut [u8],
) -> Result<(), Fault>
    requires { AtByte text.now line i × CountedTo text.now i begun lengths.old }
    ensures { Taken text.now i lengths.new result }
{
    if is_state(text, line, i) {
        return take_state(text, i, begun, lengths);
    }
    if !opens(text, line, i) {
        return Ok(());
    }
    if MOST_ROWS <= begun {
        return Err(Fault::Many { place: i });
    }
    Ok(())
}

// Reads up to the first fault, and counts the states of each sequence. What is handed back is how many sequences there are, where there is
// no fault.
fn read_all(text: &[u8], lengths: &mut [u8]) -> Result<usize, Fault>
    requires { lengths.old ≡ replicate most_rows 0 }
    ensures { ReadAll text.now lengths.new result }
{
    let mut begun = 0;
    let mut line = 0;
    for i in 0..text.len() {
        take_byte(text, line, i, begun, lengths)?;
        begun = next_begun(text, line, i, begun);
        line = next_line(text, line, i);
    }
    Ok(begun)
}

// The first of the lengths that is outside its bounds.
fn first_outside(lengths: &[u8], low: usize, high: usize) -> Option<usize>
    ensures { result ≡ position (λ x. outside low high x) lengths.now }
{
    lengths.iter().position(|x| outside(low, high, *x as usize))
}

// The size of a job that a text can be made.
#[derive(Clone, Copy, Debug, PartialEq, Eq)]
pub struct JobSize {
    pub rows: usize,
    pub width: usize,
}

// The refusals 21 to 26 of a text, or the size of its job.
pub fn size_of_job(text: &[u8]) -> Result<JobSize, Fault>
    ensures { JobSizeOf text.now result }
{
    let mut lengths = [0u8; MOST_ROWS];
    let rows = read_all(text, &mut lengths)?;
    if rows == 0 {
        return Err(Fault::Empty { place: 0 });
    }
    let begun = &lengths[..rows];
    if let Some(place) = first_outside(begun, 1, MOST_WIDTH) {
        return Err(Fault::Empty { place });
    }
    let width = lengths[0] as usize;
    if let Some(place) = first_outside(begun, width, width) {
        return Err(Fault::Uneven { place });
    }
    Ok(JobSize { rows, width })
}
