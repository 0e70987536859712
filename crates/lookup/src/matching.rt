// The corner of matching: whether a result block is one of a job, by its header. Any job and any block may be asked about, damaged ones
// too. It alters nothing.

ghost use Rattle.std.specs.Prelude.{◌≡◌, ◌≤◌};
ghost use Rattle.rules.specs.Lookup.{types_in, sampled_types, header_fits};
ghost use Rattle.lookup.specs.Match.{matches};

use job::checks::check;
use memory::word_at;
use rules::{MOST_TYPES, RECORD_SIZE, RECORDS_OFFSET};

// The header of a result block of width m, and that the block reaches to the links' offset.
fn header_fits(block: &[u8], m: usize) -> bool
    requires { m ≤ 65535 }
    ensures { result ≡ header_fits m block.now (types_in block.now) (sampled_types block.now) }
{
    if block.len() < RECORDS_OFFSET {
        return false;
    }
    let t = word_at(block, 0);
    let s = word_at(block, 2);
    if s < 1 || t < s || MOST_TYPES < t {
        return false;
    }
    let rows = RECORDS_OFFSET + RECORD_SIZE * t;
    let links = rows + (t - s) * m;
    if word_at(block, 4) != m
        || word_at(block, 10) != RECORDS_OFFSET
        || word_at(block, 12) != rows
        || word_at(block, 14) != links
    {
        return false;
    }
    links <= block.len()
}

// Whether the job passes checks 2 to 7 and the result block has a header of its width.
pub fn block_matches(job: &[u8], block: &[u8]) -> bool
    ensures { result ≡ matches job.now block.now }
{
    check(job).is_ok() && header_fits(block, word_at(job, 2))
}
