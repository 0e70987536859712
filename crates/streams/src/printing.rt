// Bytes and numbers go to a writer.

ghost use Rattle.std.specs.Prelude.{decimal, OnOk};
ghost use Rattle.std.specs.Io.KnownBytes.{Appends};

use std::io;
use std::io::Write;

// Writes all of the bytes. Some of them may be written where a write failed.
pub fn write_all<W: Write>(output: &mut W, bytes: &[u8]) -> io::Result<()>
    ensures { OnOk result (Appends (W.contents output.old) (W.contents output.new) bytes.now) }
{
    output.write_all(bytes)
}

// Writes a number in decimal.
pub fn print_decimal<W: Write>(output: &mut W, number: usize) -> io::Result<()>
    ensures { OnOk result (Appends (W.contents output.old) (W.contents output.new) (decimal number)) }
{
    write!(output, "{number}")
}
