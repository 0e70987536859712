// What a purge leaves of the types of a job, and their links: kept types (T, with their rows and first row, or none and their round),
// retired rows (R), links (L), and the answer.

ghost use Rattle.std.specs.Prelude.{◌≡◌, ◌≤◌, ◌<◌, length};
ghost use Rattle.rules.specs.Sizes.{most_width, most_types, state_area, distance_area};
ghost use Rattle.purge.specs.State.{epsilon_of};

use crate::show::{answer, number, put};
use answers::tell;
use job::checks::check;
use job::{header_of, weights};
use links::linked;
use purge::purge;
use purge::state::{Held, Phase, State};
use rules::{DISTANCE_AREA, Kind, Origin, STATE_AREA};
use run::start::begin;
use std::io::Stdout;
use types::no_kinds;

// The types from the first on are inferred ones.
fn inferred_from(kinds: [Kind; 128], first: usize) -> [Kind; 128] {
    let mut kinds = kinds;
    for kind in kinds.iter_mut().skip(first) {
        *kind = Kind {
            origin: Origin::Inferred { round: 1 },
        };
    }
    kinds
}

fn put_two(output: &mut Stdout, x: usize, y: usize) {
    number(output, b" ", x);
    number(output, b" ", y);
    put(output, b" ");
}

// A current type by its number and origin, a retired row by R.
fn put_origin(output: &mut Stdout, i: usize, types: usize, kind: Kind) {
    if types <= i {
        put(output, b"R ");
        return;
    }
    number(output, b"T ", i);
    match kind.origin {
        Origin::Sampled { rows, first } => put_two(output, rows, first),
        Origin::Inferred { round } => put_two(output, 0, round),
    }
}

// The current types, and the retired rows behind them.
fn show_types(output: &mut Stdout, states: &[u8], m: usize, held: Held)
    requires { (length states.now ≡ state_area) × (m ≤ most_width) × (held.state.made ≤ most_types) }
{
    let state = held.state;
    let kinds = held.kinds;
    for i in 0..state.made {
        put_origin(output, i, state.types, kinds[i]);
        put(output, &states[64 * i..64 * i + m]);
        put(output, b"\n");
    }
}

fn show_link(output: &mut Stdout, i: usize, j: usize, length: usize) {
    put(output, b"L");
    put_two(output, i, j);
    number(output, b"", length);
    put(output, b"\n");
}

// The links of type i and higher types, and how many they are.
fn put_line(output: &mut Stdout, area: &[u16], t: usize, i: usize, each: bool) -> usize
    requires { (length area.now ≡ distance_area) × (t ≤ most_types) × (i < t) }
    ensures { result ≤ most_types }
{
    let mut links = 0;
    for j in i..t {
        if linked(area, i, j) {
            links += 1;
            if each {
                show_link(output, i, j, area[128 * i + j] as usize);
            }
        }
    }
    links
}

fn show_links(output: &mut Stdout, area: &[u16], t: usize, each: bool)
    requires { (length area.now ≡ distance_area) × (t ≤ most_types) }
{
    let mut links = 0;
    for i in 0..t {
        links += put_line(output, area, t, i, each);
    }
    number(output, b"links ", links);
}

// What a run holds where it is refused before it begins: no type.
fn nothing_held() -> Held
    ensures types { result.state.types ≡ 0 }
    ensures made { result.state.made ≡ 0 }
    ensures epsilon { epsilon_of result.state.phase ≡ 0 }
{
    Held {
        state: State {
            types: 0,
            made: 0,
            rounds: 0,
            phase: Phase::Two,
        },
        kinds: no_kinds(),
    }
}

// The types of a job, of which so many are sampled, are purged at its epsilon. Where the run is refused there is no type, and no link.
pub(crate) fn purged(output: &mut Stdout, job: &[u8], sampled: usize, each: bool) {
    let checked = tell(check(job));
    if checked.number != 0 {
        answer(output, checked);
        return;
    }
    let header = header_of(job);
    let weights = weights(job, header.width);
    let mut states = [170u8; STATE_AREA];
    let mut area = [170u16; DISTANCE_AREA];
    let begun = begin(job, &mut states, &mut area, &weights);
    let Held { state, kinds } = begun.unwrap_or(nothing_held());
    let kinds = inferred_from(kinds, sampled);
    let left = purge(&mut states, &mut area, Held { state, kinds });
    number(output, b" epsilon ", header.epsilon);
    put(output, b"\n");
    show_types(output, &states, header.width, left);
    show_links(output, &area, left.state.types, each);
    answer(output, tell(begun.map(|_| 0)));
}
