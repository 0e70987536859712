// The printing program for FASTA texts: a text from a file or from standard input, its network or its refusal to standard output.
// Arguments are epsilon in decimal, 0 where it is left out, and the name of the file. What is no text to answer gets a line on standard
// error, and no network.

#![tactic(auto)]

ghost use Rattle.std.specs.Prelude.{◌≡◌, ◌≤◌, length, take};
ghost use Rattle.hurdlesong_fasta.specs.Fits.{Fits, TakesAll};

use memory::copy;
use memory::numerals::read_number;
use service::from_fasta::answer_fasta;
use std::io::Read;
use std::rt::{Env, Files};
use streams::arguments::{argument, argument_count};
use streams::files::open;
use streams::reading::read_full;
use streams::{Console, NAME_ROOM, Terminal, buffer};
use text::TEXT_ROOM;

// Why a text that was read is not answered.
#[derive(Clone, Copy, Debug, PartialEq, Eq)]
enum Unread {
    Long,
    Failed,
}

impl Unread {
    // The line that says so.
    fn line(self) -> &'static [u8] {
        match self {
            Unread::Long => b"hurdlesong_fasta: the text is longer than 1048576 bytes\n",
            Unread::Failed => b"hurdlesong_fasta: the text could not be read\n",
        }
    }
}

// A mebibyte, which is the longest text, and a byte, by which a longer one is seen.
const MEBIBYTE: usize = 1048577;

// Reads a text to its end, behind what was read of it; a text that leaves no byte free may go on. A read that fails is not taken for the
// end, since what came before it is a part of a text and not the text.
fn read_text<R: Read>(input: &mut R, text: &mut [u8], from: usize) -> Result<usize, Unread>
    requires { from ≤ length text.old }
    ensures fits { Fits result text.new }
    ensures kept { take from text.new ≡ take from text.old }
    ensures all { TakesAll result from text.new (R.remaining input.old) (R.remaining input.new) }
{
    let Ok(more) = read_full(input, &mut text[from..]) else {
        return Err(Unread::Failed);
    };
    let done = from + more;
    if done < text.len() {
        return Ok(done);
    }
    Err(Unread::Long)
}

// The network of a text, in memory for the longest text of an answer.
fn answer(console: &mut Terminal, text: &[u8], epsilon: u16) {
    let mut out = [0u8; TEXT_ROOM];
    let used = answer_fasta(text, epsilon, &mut out);
    let _ = console.print(
        &out[0..used],
        b"hurdlesong_fasta: the answer could not be written\n",
    );
}

// The text that a reader hands out, of at most a mebibyte, the front of which is read.
fn answer_long<R: Read>(console: &mut Terminal, input: &mut R, front: &[u8; 2047], epsilon: u16) {
    let mut text = buffer::<MEBIBYTE>();
    copy(front, &mut text, 0);
    match read_text(input, &mut text, 2047) {
        Ok(length) => answer(console, &text[..length], epsilon),
        Err(unread) => console.complain(unread.line()),
    }
}

// Most texts are short, and a mebibyte takes longer to make than they take to answer: so a text is read to little memory first.
fn answer_from<R: Read>(console: &mut Terminal, input: &mut R, epsilon: u16) {
    let mut text = [0u8; 2047];
    match read_text(input, &mut text, 0) {
        Ok(length) => answer(console, &text[..length], epsilon),
        Err(Unread::Long) => answer_long(console, input, &text, epsilon),
        Err(unread) => console.complain(unread.line()),
    }
}

// The text in the file that the second argument names.
fn answer_file(rt: &(impl Env + Files), console: &mut Terminal, epsilon: u16) {
    let mut path = buffer::<NAME_ROOM>();
    let n = argument(rt, 2, &mut path).unwrap_or(0);
    if n == 0 {
        console.complain(b"hurdlesong_fasta: the name of the file is empty or too long\n");
        return;
    }
    if let Some(mut file) = open(rt, &path[..n], &mut console.errors) {
        answer_from(console, &mut file, epsilon);
    }
}

// The epsilon that the first argument says. One that is missing, empty or too long leaves no bytes, and those write no number.
fn first_argument(environment: &impl Env) -> Option<u16> {
    let mut word = buffer::<NAME_ROOM>();
    let n = argument(environment, 1, &mut word).unwrap_or(0);
    read_number(&word[..n])
}

// The arguments are counted with the name of the program, which is the first.
fn main(rt: HostRuntime) {
    let mut console = Console {
        output: rt.stdout(),
        errors: rt.stderr(),
    };
    let count = argument_count(&rt);
    if 3 < count {
        console.complain(b"hurdlesong_fasta: at most two arguments, epsilon and a file\n");
        return;
    }
    if count < 2 {
        answer_from(&mut console, &mut rt.stdin(), 0);
        return;
    }
    let Some(epsilon) = first_argument(&rt) else {
        console.complain(
            b"hurdlesong_fasta: the epsilon is not a decimal number from 0 to 65535\n",
        );
        return;
    };
    if count == 3 {
        answer_file(&rt, &mut console, epsilon);
    } else {
        answer_from(&mut console, &mut rt.stdin(), epsilon);
    }
}
