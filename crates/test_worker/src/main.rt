// A worker: jobs from standard input, one after the other, each with its length of 16 bits before it. Each is answered over memory full of
// leftovers, and all that can be compared goes to standard output: the number, the place and the bytes used (16 bits each), the length of
// the text (32 bits), then the whole of result, state area and memory of the text. Numbers have their low byte first.

#![tactic(auto)]

ghost use Rattle.std.specs.Prelude.{◌≤◌, length, IfSome};

use answers::tell;
use memory::word_at;
use rules::{DISTANCE_AREA, Link, MOST_LINKS, RESULT_AREA, STATE_AREA};
use service::call_with;
use std::io::{Stdin, Stdout};
use streams::buffer;
use streams::printing::write_all;
use streams::reading::{came, read_full};
use text::{TEXT_ROOM, tell_text, text};

// Where a write fails, what comes behind it is written all the same, and further jobs are answered.
fn put(output: &mut Stdout, bytes: &[u8]) {
    let _ = write_all(output, bytes);
}

// The low 16 bits of a number.
fn write_low(output: &mut Stdout, x: usize) {
    put(output, &((x % 65536) as u16).to_le_bytes());
}

// A job is answered and its answer printed over memory as it is found, and all of it is written out.
fn answer_over(
    output: &mut Stdout,
    job: &[u8],
    res: &mut [u8],
    states: &mut [u8],
    distances: &mut [u16],
    table: [Link; MOST_LINKS],
    out: &mut [u8],
) {
    let owned = call_with(job, res, states, distances, table);
    let answer = owned.answer;
    let told = tell(answer);
    let printed = text(job, res, answer, out);
    let lines = tell_text(printed);
    write_low(output, told.number);
    write_low(output, told.place);
    write_low(output, told.used);
    write_low(output, lines.used);
    write_low(output, lines.used / 65536);
    put(output, res);
    put(output, states);
    put(output, out);
}

fn answer(output: &mut Stdout, job: &[u8]) {
    let mut result = [165u8; RESULT_AREA];
    let mut states = [90u8; STATE_AREA];
    let mut distances = [165u16; DISTANCE_AREA];
    let dirt = Link {
        low: 90,
        high: 165,
        length: 90,
    };
    let mut out = [90u8; TEXT_ROOM];
    answer_over(
        output,
        job,
        &mut result,
        &mut states,
        &mut distances,
        [dirt; MOST_LINKS],
        &mut out,
    );
}

// The length of the next job, which is read into the space lent, if there is a further one, and all of it.
fn next(input: &mut Stdin, space: &mut [u8]) -> Option<usize>
    requires { 65535 ≤ length space.old }
    ensures { IfSome result (λ n. n ≤ length space.new) }
{
    if came(read_full(input, &mut space[..2])) < 2 {
        return None;
    }
    let n = word_at(space, 0);
    if came(read_full(input, &mut space[..n])) < n {
        return None;
    }
    Some(n)
}

// A run ends, so it takes a million jobs at most.
fn work(input: &mut Stdin, output: &mut Stdout, space: &mut [u8])
    requires { 65535 ≤ length space.old }
{
    for _ in 0..1000000usize {
        let Some(n) = next(input, space) else {
            break;
        };
        answer(output, &space[..n]);
    }
}

fn main(rt: HostRuntime) {
    let mut space = buffer::<65536>();
    work(&mut rt.stdin(), &mut rt.stdout(), &mut space);
}
