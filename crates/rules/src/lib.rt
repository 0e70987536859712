// The room of the rules: docs/RULES.md as definitions (specs/, a file for each of its chapters, more or less) and the laws about them that
// proofs cite (proofs/). It has no functions. Here stand the types and the sizes that the definitions share with the code.

#![tactic(auto)]

// RULES 1.6: sizes, each under its name, once; specs/Sizes.antt and specs/Result.antt have the same.
// A job: its most rows, their most characters, the bounds of weights and states, the six numbers of its head, the largest block.
pub const MOST_ROWS: usize = 256;

pub const MOST_WIDTH: usize = 64;

pub const MOST_WEIGHT: usize = 1000;

pub const FIRST_STATE: usize = 33;

pub const LAST_STATE: usize = 126;

pub const JOB_HEAD: usize = 12;

pub const LARGEST_JOB: usize = JOB_HEAD + 2 * MOST_WIDTH + MOST_ROWS * MOST_WIDTH;

// The types ever made, and the links that can lie between them.
pub const MOST_TYPES: usize = 128;

pub const MOST_LINKS: usize = MOST_TYPES * (MOST_TYPES - 1) / 2;

// How rows and distances are stored: the bytes of a row, the cells of a line.
pub const ROW: usize = MOST_WIDTH;

pub const LINE: usize = MOST_TYPES;

// The result block: where its records begin, the bytes of a record and of a link.
pub const RECORDS_OFFSET: usize = 16;

pub const RECORD_SIZE: usize = 6;

pub const LINK_SIZE: usize = 6;

// The least that may be lent. The result has room for all types, all but one of them inferred, and all links.
pub const RESULT_AREA: usize = RECORDS_OFFSET
    + RECORD_SIZE * MOST_TYPES
    + (MOST_TYPES - 1) * MOST_WIDTH
    + LINK_SIZE * MOST_LINKS;

pub const STATE_AREA: usize = MOST_TYPES * ROW;

pub const DISTANCE_AREA: usize = MOST_TYPES * LINE;

// RULES 5.3: where a type comes from.
#[derive(Clone, Copy)]
pub enum Origin {
    Sampled { rows: usize, first: usize },
    Inferred { round: usize },
}

// What is known of a type beside its states, which lie in the state area.
#[derive(Clone, Copy)]
pub struct Kind {
    pub origin: Origin,
}

// RULES 7.4: a link. Laid out as in C, so that C programs can lend a table of them.
#[repr(C)]
#[derive(Clone, Copy)]
pub struct Link {
    pub low: u16,
    pub high: u16,
    pub length: u16,
}

// RULES 4.1: why a job is refused. The refusals stand in their order.
#[derive(Clone, Copy, PartialEq, Eq, Debug)]
pub enum Refusal {
    Area,
    Head,
    Rows,
    Width,
    Layout { place: usize },
    Weight { place: usize },
    State { place: usize },
    Types { place: usize },
    Room { place: usize },
    Split,
}

// RULES 4.1: what a job is answered: a network of so many bytes, or a refusal.
pub type Answer = Result<usize, Refusal>;
