// Files by a name, whose bytes must be text, and a line on standard error where one cannot be opened.

ghost use Rattle.std.specs.Prelude.{IsSome, OnOk, ◌≡◌, ◌∷◌, [], ◌++◌, ℕ, List, codes};
ghost use Rattle.std.specs.Io.KnownBytes.{Appends, Keeps};

use crate::printing::write_all;
use std::io;
use std::io::{Cursor, Write};
use std::rt::Files;

// The system's number for bytes that are no text.
const NO_TEXT: i32 = 84;

// The file is opened for reading. The standard library takes a name that is text alone.
fn open_named<F: Files>(files: &F, name: &[u8]) -> io::Result<F::File> {
    match str::from_utf8(name) {
        Ok(path) => std::fs::open(files, path),
        Err(_) => Err(io::Error::from_raw_os_error(NO_TEXT)),
    }
}

// Opens a file for reading. Where it cannot be opened there is none, and a line says so.
pub fn open<F: Files, W: Write>(files: &F, name: &[u8], errors: &mut W) -> Option<F::File>
    ensures { IsSome result → Keeps (W.contents errors.old) (W.contents errors.new) }
{
    match open_named(files, name) {
        Ok(file) => Some(file),
        Err(error) => {
            let _ = tell_failure(errors, name, error);
            None
        }
    }
}

// The system's words for an error stand before the number that the standard library adds, as in `Is a directory (os error 21)`.
fn words_alone(text: &[u8]) -> &[u8] {
    match text.iter().rposition(|byte| *byte == b'(') {
        Some(open) if 0 < open => &text[..open - 1],
        _ => text,
    }
}

// Writes a line: what failed, as the caller names it, a colon and words.
fn tell<W: Write>(output: &mut W, what: &[u8], words: &[u8]) -> io::Result<()>
    ensures { OnOk result (Appends (W.contents output.old) (W.contents output.new) (what.now ++ (codes ": " ++ (words.now ++ 10 ∷ [])))) }
{
    write_all(output, what)?;
    write_all(output, b": ")?;
    write_all(output, words)?;
    write_all(output, b"\n")
}

// Writes such a line with the system's words for an error.
pub fn tell_failure<W: Write>(output: &mut W, what: &[u8], error: io::Error) -> io::Result<()>
    ensures { OnOk result ((words : List ℕ) × Appends (W.contents output.old) (W.contents output.new) (what.now ++ (codes ": " ++ (words ++ 10 ∷ [])))) }
{
    let mut text = [0u8; 320];
    let mut cursor = Cursor::new(&mut text[..]);
    // A text longer than the memory, which none of the system's is, is cut.
    let _ = write!(cursor, "{error}");
    let end = cursor.position() as usize;
    tell(output, what, words_alone(&text[..end.min(320)]))
}
