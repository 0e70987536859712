// The arguments that a program was started with, as bytes: an argument need not be text. They are counted with the name of the program,
// which is the first.

ghost use Rattle.std.specs.Prelude.{◌≤◌, length, IfSome};

use std::env::FillError;
use std::rt::Env;

// Puts argument k at the front of the memory and says its length, unless it is missing or too long.
pub fn argument(environment: &impl Env, k: usize, room: &mut [u8]) -> Option<usize>
    ensures { IfSome result (λ n. n ≤ length room.new) }
{
    environment.arg(k, room).ok()
}

// How many arguments there are.
pub fn argument_count(environment: &impl Env) -> usize {
    let mut room = [0u8; 1];
    for k in 0..usize::MAX {
        if let Err(FillError::NotPresent) = environment.arg(k, &mut room) {
            return k;
        }
    }
    usize::MAX
}
