// The corner of the sampled types: equal rows of a job become one type, and over 128 types are refused. It reads the job and writes the
// state area.

ghost use Rattle.std.specs.Prelude.{◌≡◌, ◌≤◌, ◌<◌, length};
ghost use Rattle.rules.specs.Sizes.{most_rows, state_area};
ghost use Rattle.rules.specs.Answers.{number};
ghost use Rattle.rules.specs.Job.{rows, width, checked};
ghost use Rattle.rules.specs.Types.{row_count};
ghost use Rattle.types.specs.State.{single, one_more};
ghost use Rattle.types.specs.Collapse.{Collapsed};

use crate::{find_row, no_kinds};
use memory::copy;
use rules::{Kind, MOST_TYPES, Origin, ROW};

// What the rows collapse to: how many types there are, and their kinds.
#[derive(Clone, Copy)]
pub struct Sample {
    pub types: usize,
    pub kinds: [Kind; MOST_TYPES],
}

// There are over 128 types: the row that is the 129th, and what the rows before it collapse to.
#[derive(Clone, Copy)]
pub struct TooMany {
    pub place: usize,
    pub before: Sample,
}

// A type that has row k alone, so far.
fn single(k: usize) -> Kind
    ensures { result ≡ single k }
{
    Kind {
        origin: Origin::Sampled { rows: 1, first: k },
    }
}

// A sampled type with one row more.
fn one_more(kind: Kind) -> Kind
    requires { row_count kind.origin < most_rows }
    ensures { result ≡ one_more kind }
{
    let origin = kind.origin;
    match origin {
        Origin::Sampled { rows, first } => Kind {
            origin: Origin::Sampled {
                rows: rows + 1,
                first,
            },
        },
        Origin::Inferred { round: _ } => kind,
    }
}

// RULES 5.1, 5.2: rows become sampled types, each at its first row; or there are too many of them.
pub fn collapse(job: &[u8], states: &mut [u8], n: usize, m: usize) -> Result<Sample, TooMany>
    requires { (number (checked job.now) ≡ 0) × (n ≡ rows job.now) × (m ≡ width job.now) × (state_area ≤ length states.old) }
    ensures { Collapsed job.now states.old states.new result }
{
    let mut kinds = no_kinds();
    let mut types = 0;
    for k in 0..n {
        let row = job::row(job, m, k);
        let alone = single(k);
        let i = find_row(states, types, &row);
        if i < types {
            let kind = kinds[i];
            kinds[i] = one_more(kind);
        } else if types == MOST_TYPES {
            return Err(TooMany {
                place: k,
                before: Sample { types, kinds },
            });
        } else {
            copy(&row, states, ROW * types);
            kinds[types] = alone;
            types += 1;
        }
    }
    Ok(Sample { types, kinds })
}
