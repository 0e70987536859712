// The stored jobs: each file that an argument names is answered, one behind the other.

#![tactic(auto)]

use service::answer_text;
use std::io::Read;
use std::rt::{Env, Files};
use streams::arguments::{argument, argument_count};
use streams::files::open;
use streams::printing::write_all;
use streams::reading::{came, read_full};
use streams::{Console, NAME_ROOM, Terminal, buffer};
use text::TEXT_ROOM;

// The answer to the job that a reader hands out.
fn answer<R: Read>(console: &mut Terminal, input: &mut R) {
    let mut job = [0u8; 16525];
    let n = came(read_full(input, &mut job));
    let mut out = [0u8; TEXT_ROOM];
    let used = answer_text(&job[..n], &mut out);
    let _ = write_all(&mut console.output, &out[0..used]);
}

// The job in the file that argument k names.
fn answer_file(rt: &(impl Env + Files), console: &mut Terminal, k: usize) {
    let mut path = buffer::<NAME_ROOM>();
    let n = argument(rt, k, &mut path).unwrap_or(0);
    if let Some(mut file) = open(rt, &path[..n], &mut console.errors) {
        answer(console, &mut file);
    }
}

fn main(rt: HostRuntime) {
    let mut console = Console {
        output: rt.stdout(),
        errors: rt.stderr(),
    };
    let count = argument_count(&rt);
    for k in 1..count {
        answer_file(&rt, &mut console, k);
    }
}
