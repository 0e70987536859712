// The corner of the lent lengths: the refusal 1. It touches no memory.

ghost use Rattle.std.specs.Prelude.{◌≡◌};
ghost use Rattle.job.specs.Areas.{lengths, areas_answer};

use rules::{Answer, DISTANCE_AREA, MOST_LINKS, RESULT_AREA, Refusal, STATE_AREA};

// Check 1: no lent area is shorter than RULES 3.1 asks.
pub fn check_areas(res: usize, states: usize, distances: usize, links: usize) -> Answer
    ensures { result ≡ areas_answer (lengths res states distances links) }
{
    if res < RESULT_AREA || states < STATE_AREA || distances < DISTANCE_AREA || links < MOST_LINKS {
        return Err(Refusal::Area);
    }
    Ok(0)
}
