// The room of the streams: all that the programs do with the world outside. Memory is filled from a reader (`reading`), bytes and numbers
// go to a writer (`printing`), arguments are bytes (`arguments`), and a file is opened by a name (`files`). Nothing here is on the
// heap, and nothing here knows of jobs or texts.

#![tactic(auto)]

pub mod arguments;
pub mod files;
pub mod printing;
pub mod reading;

ghost use Rattle.std.specs.Prelude.{◌≡◌, OnOk, length};
ghost use Rattle.std.specs.Io.KnownBytes.{Appends};

use crate::printing::write_all;
use std::io;
use std::io::{Stderr, Stdout, Write};

// Where a program's answers go, and where a line goes that says why there is none.
#[derive(Clone, Copy)]
pub struct Console<O, E> {
    pub output: O,
    pub errors: E,
}

// The console of a program: standard output and standard error.
pub type Terminal = Console<Stdout, Stderr>;

impl<O: Write, E: Write> Console<O, E> {
    // A line on standard error, and nothing on standard output. Where it cannot be written there is nobody left to tell.
    pub fn complain(&mut self, line: &[u8])
        ensures { self.new.output ≡ self.old.output }
    {
        let _ = write_all(&mut self.errors, line);
    }

    // A text, by one write. Where it cannot be written a line says so, and else nothing goes to standard error.
    pub fn print(&mut self, text: &[u8], unwritten: &[u8]) -> io::Result<()>
        ensures written { OnOk result (Appends (O.contents self.old.output) (O.contents self.new.output) text.now) }
        ensures silent { OnOk result (self.new.errors ≡ self.old.errors) }
    {
        let written = write_all(&mut self.output, text);
        if written.is_err() {
            self.complain(unwritten);
        }
        written
    }
}

// So many zeros. Only their number is known of them, so that no proof goes through so many.
pub fn buffer<const N: usize>() -> [u8; N]
    ensures { N ≡ length result }
{
    [0; N]
}

// So many bytes hold every name of a file that the system takes.
pub const NAME_ROOM: usize = 4096;
