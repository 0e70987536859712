// The parts of the base, asked one by one: the checks, the sampled types, the links and the purge. The questions stand in the file
// `stdin`, one behind the other; tests/parts.py writes them, and tells from the rules alone what must be printed.

#![tactic(auto)]

mod damages;
mod purges;
mod show;

use crate::damages::{Part, damage_all};
use crate::purges::purged;
use crate::show::put;
use memory::word_at;
use std::io::{Stdin, Stdout};
use streams::reading::{came, read_full};

fn read(input: &mut Stdin, part: &mut [u8], n: usize) {
    if n <= part.len() {
        let _ = read_full(input, &mut part[0..n]);
    }
}

// The next question: what is asked, and of what; the lengths of the title and of the job; both. There is none where its head is cut.
// Asked is the answer to a job at every length (1), at every value of the number (2) or of the byte (3) at a place; or what a purge
// leaves of its types, of which so many are sampled, with each link (4) or without (5).
fn question(input: &mut Stdin, output: &mut Stdout) -> bool {
    let mut head = [0u8; 8];
    if came(read_full(input, &mut head)) < 8 {
        return false;
    }
    let mut title = [0u8; 64];
    let mut job = [0u8; 16896];
    let t = word_at(&head, 4) % 65;
    let n = word_at(&head, 6) % 16897;
    read(input, &mut title, t);
    read(input, &mut job, n);
    put(output, &title[0..t]);
    let job = &mut job[0..n];
    let of = word_at(&head, 2);
    match word_at(&head, 0) {
        1 => damage_all(output, job, Part::Length),
        2 => damage_all(output, job, Part::Number { at: of }),
        what if what < 4 => damage_all(output, job, Part::Byte { at: of }),
        what => purged(output, job, of, what == 4),
    }
    true
}

fn main(rt: HostRuntime) {
    let mut input = rt.stdin();
    let mut output = rt.stdout();
    for _ in 0..1000usize {
        if !question(&mut input, &mut output) {
            return;
        }
    }
}
