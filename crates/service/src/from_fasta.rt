// The corner of the service for FASTA: a text is turned into a job, which is answered, and the answer printed into memory that is lent. What
// the program for FASTA does, but for reading and writing.

ghost use Rattle.service.specs.Printed.{FastaText};

use crate::answer_text;
use answers::Told;
use fasta::conversion::tell_conversion;
use fasta::make_job;
use rules::LARGEST_JOB;
use text::refusal_text;

// The text of the network of a FASTA text, or of its refusal. What is handed back is its length.
pub fn answer_fasta(text: &[u8], epsilon: u16, out: &mut [u8]) -> usize
    ensures { FastaText text.now epsilon out.old result out.new }
{
    let mut job = [0u8; LARGEST_JOB];
    let conversion = make_job(text, epsilon, &mut job);
    if let Ok(used) = conversion {
        return answer_text(&job[..used], out);
    }
    let told: Told = tell_conversion(conversion);
    refusal_text(told.number, told.place, out).unwrap_or(0)
}
