// The corner of the run's small state: its counts, its round and its phase. Each method gives back the next state (RULES 20.3). It
// touches no memory.

ghost use Rattle.std.specs.Prelude.{◌≡◌, ◌+◌, ◌≤◌};
ghost use Rattle.rules.specs.Sizes.{most_types};
ghost use Rattle.purge.specs.State.{epsilon_of, keeping, grown, second_phase};

use rules::{Kind, MOST_TYPES};

// Phase I is at the job's epsilon, Phase II at epsilon 0.
#[derive(Clone, Copy)]
pub enum Phase {
    One { epsilon: usize },
    Two,
}

// The run's small state: how many types are current, how many were ever made, the rounds that added a type, the phase.
#[derive(Clone, Copy)]
pub struct State {
    pub types: usize,
    pub made: usize,
    pub rounds: usize,
    pub phase: Phase,
}

impl State {
    // The epsilon that links are found at.
    pub fn epsilon(self) -> usize
        ensures { result ≡ epsilon_of self.phase }
    {
        match self.phase {
            Phase::One { epsilon } => epsilon,
            Phase::Two => 0,
        }
    }

    // So many types stay current; the others are retired and count as made.
    pub fn keeping(mut self, count: usize) -> Self
        ensures { result ≡ keeping self count }
    {
        self.types = count;
        self
    }

    // A round added so many types.
    pub fn grown(mut self, count: usize) -> Self
        requires { (self.types ≤ most_types) × (self.made + count ≤ most_types) × (self.rounds ≤ most_types) }
        ensures { result ≡ grown self count }
    {
        self.types += count;
        self.made += count;
        self.rounds += 1;
        self
    }

    // Phase I is over.
    pub fn second_phase(self) -> Self
        ensures { result ≡ second_phase self }
    {
        State {
            phase: Phase::Two,
            ..self
        }
    }
}

// What of the run is held by value: its small state, and the kinds of its current types.
#[derive(Clone, Copy)]
pub struct Held {
    pub state: State,
    pub kinds: [Kind; MOST_TYPES],
}
