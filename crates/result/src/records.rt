// The corner of the records: the record of each type, and the rows of inferred types, as the result block has them. It reads the kinds and
// the state area, and writes a part of the memory that it is lent.

ghost use Rattle.std.specs.Prelude.{◌≡◌, [], ◌∷◌, ◌+◌, ◌*◌, ◌-◌, ◌≤◌, length};
ghost use Rattle.rules.specs.Sizes.{most_width, most_types, state_area};
ghost use Rattle.rules.specs.Result.{words, record_of, record_size};
ghost use Rattle.memory.specs.Placed.{placed};
ghost use Rattle.result.specs.Records.{OriginFits, OriginsFit, sampled_of, records_of, inferred_rows};

use memory::{copy, put_three};
use rules::{Kind, MOST_TYPES, Origin, RECORD_SIZE, ROW};

// The record of a type: rows, place, round.
fn put_record(kind: Kind, index: usize, out: &mut [u8], at: usize)
    requires { OriginFits kind.origin × (index ≤ 65535) × (at + record_size ≤ length out.old) }
    ensures { out.new ≡ placed out.old at (words (record_of kind.origin index)) }
{
    let origin = kind.origin;
    match origin {
        Origin::Sampled { rows, first } => put_three(out, at, rows, first, 0),
        Origin::Inferred { round } => put_three(out, at, 0, index, round),
    }
}

// How many of t types are sampled.
pub fn sampled(t: usize, kinds: [Kind; MOST_TYPES]) -> usize
    requires { t ≤ most_types }
    ensures { (result ≡ sampled_of kinds t) × (result ≤ t) }
{
    let mut sampled = 0;
    for k in 0..t {
        if let Origin::Sampled { .. } = kinds[k].origin {
            sampled += 1;
        }
    }
    sampled
}

// The records of t types, s of them sampled.
pub fn put_records(t: usize, s: usize, kinds: [Kind; MOST_TYPES], out: &mut [u8], at: usize)
    requires { (t ≤ most_types) × OriginsFit kinds t × (at + record_size * t ≤ length out.old) }
    ensures { out.new ≡ placed out.old at (records_of kinds t s) }
{
    for k in 0..t {
        put_record(kinds[k], k.saturating_sub(s), out, at + RECORD_SIZE * k);
    }
}

// The rows of the types behind the sampled ones.
pub fn put_inferred_rows(states: &[u8], m: usize, t: usize, s: usize, out: &mut [u8], at: usize)
    requires { (state_area ≤ length states.now) × (m ≤ most_width) × (t ≤ most_types) × (s ≤ t) × (at + (t - s) * m ≤ length out.old) }
    ensures { out.new ≡ placed out.old at (inferred_rows m states.now s (t - s)) }
{
    for k in s..t {
        let from = ROW * k;
        copy(&states[from..from + m], out, at + (k - s) * m);
    }
}
