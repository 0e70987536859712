// The corner of the checks: the refusals 2 to 7, in the order they are tried. The job is only read.

ghost use Rattle.std.specs.Prelude.{◌≡◌};
ghost use Rattle.rules.specs.Job.{checked};
ghost use Rattle.job.specs.Stages.{Sized};

use crate::contents::{check_contents, outside};
use memory::word_at;
use rules::{Answer, JOB_HEAD, MOST_ROWS, MOST_WIDTH, Refusal};

// LAYOUT, and what is tried behind it.
fn check_layout(job: &[u8], n: usize, m: usize) -> Answer
    requires { Sized job.now n m }
    ensures { result ≡ checked job.now }
{
    if word_at(job, 6) != JOB_HEAD {
        return Err(Refusal::Layout { place: 6 });
    }
    if word_at(job, 8) != JOB_HEAD + 2 * m {
        return Err(Refusal::Layout { place: 8 });
    }
    let whole = JOB_HEAD + 2 * m + n * m;
    if word_at(job, 10) != whole {
        return Err(Refusal::Layout { place: 10 });
    }
    if job.len() != whole {
        return Err(Refusal::Layout { place: 12 });
    }
    check_contents(job, n, m)
}

// The refusals 2 to 7 in the order they are tried: HEAD, ROWS and WIDTH here.
pub fn check(job: &[u8]) -> Answer
    ensures { result ≡ checked job.now }
{
    if job.len() < JOB_HEAD {
        return Err(Refusal::Head);
    }
    let n = word_at(job, 0);
    if outside(1, MOST_ROWS, n) {
        return Err(Refusal::Rows);
    }
    let m = word_at(job, 2);
    if outside(1, MOST_WIDTH, m) {
        return Err(Refusal::Width);
    }
    check_layout(job, n, m)
}
