// The room of the result block: the network that a run left in memory is written as RULES 13 lays it out. Here is its front, up to the
// links, with the records and rows of its corner `records`; the links go in their order (`ordered`) to the link table and from there to the
// result (`table`). It reads the state area, the distance area and what is held by value.

#![tactic(auto)]

pub mod ordered;
pub mod records;
pub mod table;

ghost use Rattle.std.specs.Prelude.{◌≡◌, ◌≤◌, length};
ghost use Rattle.rules.specs.Sizes.{most_width, most_types};
ghost use Rattle.rules.specs.Result.{words, header, records_offset};
ghost use Rattle.memory.specs.Placed.{placed};
ghost use Rattle.result.specs.FrontWritten.{Writable, FrontWritten};

use crate::ordered::count_links;
use crate::records::{put_inferred_rows, put_records, sampled};
use memory::{put_three, put_word};
use purge::state::Held;
use rules::{RECORD_SIZE, RECORDS_OFFSET};

// How many links are still to be written, and where.
#[derive(Clone, Copy)]
pub struct Front {
    pub links: usize,
    pub at: usize,
}

// The header: types, sampled, width, links, rounds, and the three offsets.
fn put_header(m: usize, t: usize, s: usize, l: usize, rounds: usize, out: &mut [u8])
    requires { (m ≤ most_width) × (t ≤ most_types) × (s ≤ t) × (l ≤ 65535) × (rounds ≤ 65535) × (records_offset ≤ length out.old) }
    ensures { out.new ≡ placed out.old 0 (words (header t s m l rounds)) }
{
    let rows = RECORDS_OFFSET + RECORD_SIZE * t;
    let links = rows + (t - s) * m;
    put_three(out, 0, t, s, m);
    put_word(out, 6, l);
    put_word(out, 8, rounds);
    put_three(out, 10, RECORDS_OFFSET, rows, links);
}

// The result block of the network in memory up to its links, at the front of the part lent.
pub fn write_front(states: &[u8], area: &[u16], m: usize, held: Held, out: &mut [u8]) -> Front
    requires { Writable m states.now area.now held out.old }
    ensures { FrontWritten m states.now area.now held out.old out.new result }
{
    let state = held.state;
    let kinds = held.kinds;
    let t = state.types;
    let s = sampled(t, kinds);
    let links = count_links(area, t);
    let rows = RECORDS_OFFSET + RECORD_SIZE * t;
    let at = rows + (t - s) * m;
    put_header(m, t, s, links, state.rounds, out);
    put_records(t, s, kinds, out, RECORDS_OFFSET);
    put_inferred_rows(states, m, t, s, out, rows);
    Front { links, at }
}
