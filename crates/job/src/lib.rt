// The room of the job block. Its corners are the checks: of the lengths lent (`areas`, 1), of the job's form (`checks`, 2 to 5) and of its
// contents (`contents`, 6 and 7). Here is what is read off a job that passed: its fields, its weights and its rows. The job is only read.

#![tactic(auto)]

pub mod areas;
pub mod checks;
pub mod contents;

ghost use Rattle.std.specs.Prelude.{◌≡◌, ◌≤◌, ◌<◌, length};
ghost use Rattle.rules.specs.Sizes.{most_width, job_head, row_size};
ghost use Rattle.rules.specs.Answers.{number};
ghost use Rattle.rules.specs.Job.{rows, width, weights, job_row, checked};
ghost use Rattle.rules.specs.Call.{padded};
ghost use Rattle.job.specs.Header.{HeaderOf};

use memory::{copy, word_at};
use rules::{JOB_HEAD, MOST_WIDTH, ROW};

// What the header says of the job's size, and epsilon.
#[derive(Clone, Copy)]
pub struct Header {
    pub rows: usize,
    pub width: usize,
    pub epsilon: usize,
}

pub fn header_of(job: &[u8]) -> Header
    requires { job_head ≤ length job.now }
    ensures { HeaderOf job.now result }
{
    Header {
        rows: word_at(job, 0),
        width: word_at(job, 2),
        epsilon: word_at(job, 4),
    }
}

// The weights, with zeros behind them: a character past the width weighs nothing.
pub fn weights(job: &[u8], m: usize) -> [u16; MOST_WIDTH]
    requires { (number (checked job.now) ≡ 0) × (m ≡ width job.now) }
    ensures { result ≡ padded most_width (weights job.now) }
{
    let mut w = [0u16; MOST_WIDTH];
    for c in 0..m {
        w[c] = word_at(job, JOB_HEAD + 2 * c) as u16;
    }
    w
}

// Row k as it is stored, with zeros behind it. Rows enter the run here and nowhere else.
pub fn row(job: &[u8], m: usize, k: usize) -> [u8; ROW]
    requires { (number (checked job.now) ≡ 0) × (m ≡ width job.now) × (k < rows job.now) }
    ensures { result ≡ padded row_size (job_row job.now k) }
{
    let from = JOB_HEAD + 2 * m + k * m;
    let to = from + m;
    let mut x = [0u8; ROW];
    copy(&job[from..to], &mut x, 0);
    x
}
