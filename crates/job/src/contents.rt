// The corner of a job's contents: the refusals 6 and 7, of a job whose size and layout are right. The job is only read.

ghost use Rattle.std.specs.Prelude.{◌≡◌, ◌+◌, ◌*◌, ◌≤◌, length};
ghost use Rattle.rules.specs.Sizes.{most_width, job_head};
ghost use Rattle.rules.specs.Job.{rows, width, outside, bad_weight, bad_state, checked};
ghost use Rattle.job.specs.Stages.{LaidOut};

use memory::word_at;
use rules::{Answer, FIRST_STATE, JOB_HEAD, LAST_STATE, MOST_WEIGHT, Refusal};

// A number outside its bounds.
pub fn outside(low: usize, high: usize, x: usize) -> bool
    ensures { result ≡ outside low high x }
{
    x < low || high < x
}

// The first column whose weight is 0 or over 1,000, or the width where there is none: the definition says it by this number.
fn bad_weight(job: &[u8], m: usize) -> usize
    requires { (m ≡ width job.now) × (m ≤ most_width) × (job_head + 2 * m ≤ length job.now) }
    ensures { result ≡ bad_weight job.now }
{
    for c in 0..m {
        if outside(1, MOST_WEIGHT, word_at(job, JOB_HEAD + 2 * c)) {
            return c;
        }
    }
    m
}

// The first place in row order whose state is outside 33 to 126, counted over all states, or their number where there is none, as the
// definition says it. Two loops and a label are the form that the customer named.
fn bad_state(job: &[u8], n: usize, m: usize) -> usize
    requires { (n ≡ rows job.now) × (m ≡ width job.now) × (length job.now ≡ job_head + 2 * m + n * m) }
    ensures { result ≡ bad_state job.now }
{
    let first = JOB_HEAD + 2 * m;
    let mut place = 0;
    'rows: for _row in 0..n {
        for _column in 0..m {
            if outside(FIRST_STATE, LAST_STATE, job[first + place] as usize) {
                break 'rows;
            }
            place += 1;
        }
    }
    place
}

// WEIGHT and STATE.
pub fn check_contents(job: &[u8], n: usize, m: usize) -> Answer
    requires { LaidOut job.now n m }
    ensures { result ≡ checked job.now }
{
    let states = n * m;
    let column = bad_weight(job, m);
    let place = bad_state(job, n, m);
    if column < m {
        return Err(Refusal::Weight { place: column });
    }
    if place < states {
        return Err(Refusal::State { place });
    }
    Ok(0)
}
