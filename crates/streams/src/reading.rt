// Memory is filled from a reader.

ghost use Rattle.std.specs.Prelude.{◌≡◌, ◌<◌, ◌≤◌, length, take, IfOk, IfErr, MatchResult};
ghost use Rattle.std.specs.Io.KnownBytes.{Consumes, IsAtEnd};

use std::io::Read;

// A read failed behind so many bytes.
#[derive(Clone, Copy, Debug, PartialEq, Eq)]
pub struct Cut {
    pub length: usize,
}

// Reads until the memory is full, the input ends or a read fails, and says how many bytes came to the front of the memory. A single read may
// bring less than there is room for, though more is to come: from a pipe it brings what has been written so far.
pub fn read_full<R: Read>(input: &mut R, room: &mut [u8]) -> Result<usize, Cut>
    ensures bound { IfOk result (λ n. n ≤ length room.new) }
    ensures bytes { MatchResult result
        (λ n. Consumes (R.remaining input.old) (R.remaining input.new) (take n room.new))
        (λ cut. Consumes (R.remaining input.old) (R.remaining input.new) (take cut.length room.new)) }
    ensures ended { IfOk result (λ n. n < length room.new → IsAtEnd (R.remaining input.new)) }
    ensures failed_before_the_end { IfErr result (λ cut. cut.length < length room.new) }
{
    let mut done = 0;
    // no count: a read brings as many bytes as there are
    while done < room.len() {
        match input.read(&mut room[done..]) {
            Ok(0) => return Ok(done),
            Ok(more) => done += more,
            Err(_) => return Err(Cut { length: done }),
        }
    }
    Ok(done)
}

// How many bytes came, for whom a read that fails ends the input.
pub fn came(read: Result<usize, Cut>) -> usize
    ensures { MatchResult read (λ n. result ≡ n) (λ cut. result ≡ cut.length) }
{
    match read {
        Ok(length) => length,
        Err(cut) => cut.length,
    }
}
