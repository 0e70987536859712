// The room of the whole service: a job is answered and its answer printed, over work memory of its own. Its corner does the same for a FASTA
// text (`from_fasta`). What the programs do, but for reading and writing.

#![tactic(auto)]

pub mod from_fasta;

ghost use Rattle.network.specs.Called.{Called};
ghost use Rattle.service.specs.Served.{AnsweredJob, TextOnly};

use network::call;
use rules::{Answer, DISTANCE_AREA, Link, MOST_LINKS, RESULT_AREA, STATE_AREA};
use text::text;

// What a call with a table by value leaves: the answer, and the table. It is no Result, since the table comes back after a refusal too.
#[derive(Clone, Copy)]
pub struct Owned {
    pub answer: Answer,
    pub table: [Link; MOST_LINKS],
}

// The call for those who have a table of their own: it is lent to the call and handed back.
pub fn call_with(
    job: &[u8],
    res: &mut [u8],
    states: &mut [u8],
    distances: &mut [u16],
    table: [Link; MOST_LINKS],
) -> Owned
    ensures { Called job.now res.old states.old distances.old table result.answer res.new states.new distances.new result.table }
{
    let mut table = table;
    let answer = call(job, res, states, distances, &mut table);
    Owned { answer, table }
}

// The call over work memory of this function's own, of the least lengths that RULES 3.1 asks for. The call clears it, whatever it holds:
// so it holds numbers whose two bytes differ, which a compiler fills in by wide steps and not byte by byte.
pub fn answer_job(job: &[u8], res: &mut [u8]) -> Answer
    ensures { AnsweredJob job.now res.old result res.new }
{
    let mut states = [0u8; STATE_AREA];
    let mut distances = [256u16; DISTANCE_AREA];
    let some = Link {
        low: 256,
        high: 256,
        length: 256,
    };
    let table = [some; MOST_LINKS];
    let owned = call_with(job, res, &mut states, &mut distances, table);
    owned.answer
}

// A job served over memory of this function's own, of the least lengths too. What is handed back is the text's length, or 0 where there is
// no text: that is what the promise says.
pub fn answer_text(job: &[u8], out: &mut [u8]) -> usize
    ensures { TextOnly job.now out.old result out.new }
{
    let mut result = [0u8; RESULT_AREA];
    let answer = answer_job(job, &mut result);
    text(job, &result, answer, out).unwrap_or(0)
}
