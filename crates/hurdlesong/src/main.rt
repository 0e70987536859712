// The printing program: a job from standard input, its network or its refusal to standard output. Most jobs and most texts are short, and
// large memory takes longer to make than they take to answer: so job and text are in little memory, and in larger only where that is too
// little.

#![tactic(auto)]

ghost use Rattle.std.specs.Prelude.{◌≡◌, ◌≤◌, length, slice_range, take};
ghost use Rattle.std.specs.Io.KnownBytes.{Consumes};
ghost use Rattle.text.specs.Printed.{text_room};

use memory::copy;
use rules::{Answer, LARGEST_JOB, RESULT_AREA};
use service::answer_job;
use std::io::{Read, Stdin};
use streams::reading::{came, read_full};
use streams::{Console, Terminal};
use text::{TEXT_ROOM, brief};

// Prints the text of an answer if N bytes have room for it, and says whether they have.
fn print_in<'a, const N: usize>(
    console: &mut Terminal,
    job: &'a [u8],
    block: &'a [u8],
    answer: Answer,
) -> bool
    requires { N ≤ text_room }
{
    let mut room = [0u8; N];
    let out = &mut room[..];
    let Ok(used) = brief(job, block, answer, out) else {
        return false;
    };
    let _ = console.print(
        &out[..used],
        b"hurdlesong: the answer could not be written\n",
    );
    true
}

// A job is answered, and the answer printed. The last room is enough for every text.
fn answer(console: &mut Terminal, job: &[u8]) {
    let mut result = [0u8; RESULT_AREA];
    let answer = answer_job(job, &mut result);
    if !print_in::<2047>(console, job, &result, answer)
        && !print_in::<16384>(console, job, &result, answer)
    {
        print_in::<TEXT_ROOM>(console, job, &result, answer);
    }
}

// Reads on behind what was read. What is handed back is the length of both together.
fn read_on<R: Read>(input: &mut R, front: &[u8], job: &mut [u8]) -> usize
    requires { length front.now ≤ length job.old }
    ensures within { result ≤ length job.new }
    ensures behind { length front.now ≤ result }
    ensures kept { take (length front.now) job.new ≡ front.now }
    ensures read { Consumes (R.remaining input.old) (R.remaining input.new) (slice_range job.new (length front.now) result) }
{
    copy(front, job, 0);
    let from = front.len();
    let more = came(read_full(input, &mut job[from..]));
    from + more
}

// A byte more than the largest job is read, so that a longer one is refused.
fn answer_long(console: &mut Terminal, input: &mut Stdin, front: &[u8; 2047]) {
    let mut job = [0u8; LARGEST_JOB + 1];
    let n = read_on(input, front, &mut job);
    answer(console, &job[0..n]);
}

fn main(rt: HostRuntime) {
    let mut console = Console {
        output: rt.stdout(),
        errors: rt.stderr(),
    };
    let mut input = rt.stdin();
    let mut job = [0u8; 2047];
    let n = came(read_full(&mut input, &mut job));
    if n < 2047 {
        answer(&mut console, &job[..n]);
    } else {
        answer_long(&mut console, &mut input, &job);
    }
}
