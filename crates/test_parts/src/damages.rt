// One part of a job at a time, at every value: values that are answered alike are one line.

use crate::show::{answer, number, put};
use answers::{Told, tell};
use job::checks::check;
use std::io::Stdout;

// What is changed of a job: how many bytes of it there are, a number of 16 bits at a place, or a byte at a place.
#[derive(Clone, Copy)]
pub(crate) enum Part {
    Length,
    Number { at: usize },
    Byte { at: usize },
}

fn set(job: &mut [u8], at: usize, x: usize) {
    if let Some(byte) = job.get_mut(at) {
        *byte = (x % 256) as u8;
    }
}

impl Part {
    // The answer to the job with the part at a value.
    fn answered(self, job: &mut [u8], value: usize) -> Told {
        match self {
            Part::Length => return tell(check(&job[..value.min(job.len())])),
            Part::Number { at } => {
                set(job, at, value);
                set(job, at % 65536 + 1, value / 256);
            }
            Part::Byte { at } => set(job, at, value),
        }
        tell(check(job))
    }

    // The largest value: all bytes are there, or all bits are set.
    fn largest(self, job: &[u8]) -> usize {
        match self {
            Part::Length => job.len(),
            Part::Number { .. } => 65535,
            Part::Byte { .. } => 255,
        }
    }
}

// The values from the first to the last were answered alike.
fn put_run(output: &mut Stdout, first: usize, last: usize, told: Told) {
    number(output, b"  ", first);
    if first < last {
        number(output, b"..", last);
    }
    answer(output, told);
}

// The part at every value, from 0 to the largest.
pub(crate) fn damage_all(output: &mut Stdout, job: &mut [u8], part: Part) {
    put(output, b"\n");
    let last = part.largest(job);
    let mut told = part.answered(job, 0);
    let mut first = 0;
    for value in 0..last {
        let new = part.answered(job, value + 1);
        if (new.number, new.place) != (told.number, told.place) {
            put_run(output, first, value, told);
            told = new;
            first = value + 1;
        }
    }
    put_run(output, first, last, told);
}
