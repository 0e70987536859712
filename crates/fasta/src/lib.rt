// The room of FASTA: a text and an epsilon become a job block with all weights 1, in memory that is lent. Its corners: which bytes open a
// sequence and which are states (`lines`), how many sequences there are and how long (`alignment`), what a text is answered
// (`conversion`). The text is only read.

#![tactic(auto)]

pub mod alignment;
pub mod conversion;
pub mod lines;

ghost use Rattle.std.specs.Prelude.{◌≡◌, ◌+◌, ◌*◌, ◌≤◌, length};
ghost use Rattle.graph.specs.Below.{only};
ghost use Rattle.rules.specs.Sizes.{most_rows, most_width, job_head};
ghost use Rattle.rules.specs.Result.{words};
ghost use Rattle.memory.specs.Placed.{placed, Follows};
ghost use Rattle.fasta.specs.Lines.{byte_at, is_state, AtByte};
ghost use Rattle.fasta.specs.Sequences.{states};
ghost use Rattle.fasta.specs.Block.{job_header, weights_of};
ghost use Rattle.fasta.specs.Converted.{Converted};

use crate::alignment::{JobSize, size_of_job};
use crate::conversion::{Conversion, Fault};
use crate::lines::{is_state, next_line};
use memory::{clear, put_three, put_word};
use rules::{JOB_HEAD, LARGEST_JOB};

// The six numbers of the header.
fn put_job_header(n: usize, m: usize, epsilon: usize, job: &mut [u8])
    requires { (n ≤ most_rows) × (m ≤ most_width) × (epsilon ≤ 65535) × (job_head ≤ length job.old) }
    ensures { job.new ≡ placed job.old 0 (words (job_header n m epsilon)) }
{
    let states = JOB_HEAD + 2 * m;
    let whole = states + n * m;
    put_three(job, 0, n, m, epsilon);
    put_three(job, 6, JOB_HEAD, states, whole);
}

// All weights are 1.
fn put_weights(m: usize, job: &mut [u8])
    requires { job_head + 2 * m ≤ length job.old }
    ensures { job.new ≡ placed job.old job_head (weights_of m) }
{
    for c in 0..m {
        put_word(job, JOB_HEAD + 2 * c, 1);
    }
}

// Byte i of the text, where it is a state. What is handed back is the place behind it.
fn put_state(text: &[u8], line: usize, i: usize, job: &mut [u8], at: usize) -> usize
    requires { AtByte text.now line i × (at + length (only (is_state text.now i) (byte_at text.now i)) ≤ length job.old) }
    ensures { Follows job.old at (only (is_state text.now i) (byte_at text.now i)) job.new result }
{
    if !is_state(text, line, i) {
        return at;
    }
    job[at] = text[i];
    at + 1
}

// All states of the text, one behind the other.
fn put_states(text: &[u8], job: &mut [u8], at: usize)
    requires { at + length (states text.now) ≤ length job.old }
    ensures { job.new ≡ placed job.old at (states text.now) }
{
    let mut to = at;
    let mut line = 0;
    for i in 0..text.len() {
        to = put_state(text, line, i, job, to);
        line = next_line(text, line, i);
    }
}

// Turns a FASTA text and an epsilon into a job block at the front of the memory lent.
pub fn make_job(text: &[u8], epsilon: u16, job: &mut [u8]) -> Conversion
    ensures { Converted text.now epsilon (length job.old) job.new result }
{
    clear(job, 0);
    if job.len() < LARGEST_JOB {
        return Err(Fault::Short);
    }
    let JobSize { rows, width } = size_of_job(text)?;
    let states = JOB_HEAD + 2 * width;
    let used = states + rows * width;
    put_job_header(rows, width, epsilon as usize, job);
    put_weights(width, job);
    put_states(text, job, states);
    Ok(used)
}
