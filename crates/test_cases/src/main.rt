// The cases of RULES 16.2 to 16.4: R1 to R4, rows 256 and 257, widths 64 and 65, the first example of the paper; and an area that is
// too short. Each job is built in memory and answered twice, over memory that is filled with leftovers, with others the second time. All areas
// but the link table are longer than they need to be, save in the last case.

#![tactic(auto)]

mod build;

use crate::build::Grid;
use answers::tell;
use rules::{Answer, Link, MOST_LINKS};
use service::call_with;
use std::io::Stdout;
use streams::printing::write_all;
use text::text;

// No area is longer.
const LONGEST: usize = 60000;

// Where a write fails, what comes behind it is written all the same.
fn put(output: &mut Stdout, bytes: &[u8]) {
    let _ = write_all(output, bytes);
}

// The first bytes of the text of an answer.
fn print_answer<'a>(output: &mut Stdout, job: &'a [u8], res: &'a [u8], answer: Answer, shown: u8) {
    let mut out = [165u8; 172800];
    // What is left in the memory is printed, however the text ended.
    let _ = text(job, res, answer, &mut out);
    put(output, &out[..shown as usize]);
}

// Whether a record of the table is there.
fn holds(link: Link) -> bool {
    (link.low != 0) | (link.high != 0) | (link.length != 0)
}

// Whether the result is zero behind the bytes used, and the work memory throughout.
fn all_zero(
    res: &[u8],
    used: usize,
    states: &[u8],
    distances: &[u16],
    table: [Link; MOST_LINKS],
) -> bool {
    res.iter().skip(used).all(|byte| *byte == 0)
        && states.iter().all(|byte| *byte == 0)
        && distances.iter().all(|length| *length == 0)
        && !table.iter().any(|link| holds(*link))
}

// A job is answered over memory as it is found, and what is left in the memory is looked for.
fn answer_over(
    output: &mut Stdout,
    job: &[u8],
    shown: u8,
    res: &mut [u8],
    states: &mut [u8],
    distances: &mut [u16],
    table: [Link; MOST_LINKS],
) {
    let owned = call_with(job, res, states, distances, table);
    let answer = owned.answer;
    let table = owned.table;
    print_answer(output, job, res, answer, shown);
    let told = tell(answer);
    if all_zero(res, told.used, states, distances, table) {
        put(output, b"work memory and unused result zero\n");
    } else {
        put(output, b"something is left in the memory\n");
    }
}

// A job is answered over memory that is full of leftovers, with the distance area that is lent.
fn answer_within(output: &mut Stdout, job: &[u8], shown: u8, leftover: u8, distances: &mut [u16]) {
    let mut result = [leftover; LONGEST];
    let mut states = [leftover; LONGEST];
    let wide = leftover as u16;
    distances.fill(wide);
    let dirt = Link {
        low: wide,
        high: wide,
        length: wide,
    };
    answer_over(
        output,
        job,
        shown,
        &mut result,
        &mut states,
        distances,
        [dirt; MOST_LINKS],
    );
}

fn answer_twice(output: &mut Stdout, job: &[u8], shown: u8) {
    let mut distances = [0u16; LONGEST];
    answer_within(output, job, shown, 165, &mut distances);
    answer_within(output, job, shown, 90, &mut distances);
}

// A job by its name, and how much of the text of its answer is shown.
#[derive(Clone, Copy)]
struct Case {
    name: &'static [u8],
    job: Grid,
    shown: u8,
}

// R1 to R4, and equal rows of equal states at the bounds.
const CASES: [Case; 8] = [
    Case {
        name: b"R1\n",
        job: Grid {
            rows: 128,
            width: 2,
            grid: 128,
            side: 16,
            first: b'0',
        },
        shown: 42,
    },
    Case {
        name: b"R2\n",
        job: Grid {
            rows: 129,
            width: 2,
            grid: 129,
            side: 16,
            first: b'0',
        },
        shown: 14,
    },
    Case {
        name: b"R3\n",
        job: Grid {
            rows: 124,
            width: 5,
            grid: 121,
            side: 11,
            first: b'0',
        },
        shown: 42,
    },
    Case {
        name: b"R4\n",
        job: Grid {
            rows: 128,
            width: 5,
            grid: 125,
            side: 25,
            first: b'0',
        },
        shown: 12,
    },
    Case {
        name: b"256 rows\n",
        job: Grid {
            rows: 256,
            width: 1,
            grid: 256,
            side: 256,
            first: b'A',
        },
        shown: 47,
    },
    Case {
        name: b"257 rows\n",
        job: Grid {
            rows: 257,
            width: 1,
            grid: 257,
            side: 257,
            first: b'A',
        },
        shown: 12,
    },
    Case {
        name: b"width 64\n",
        job: Grid {
            rows: 1,
            width: 64,
            grid: 1,
            side: 1,
            first: b'A',
        },
        shown: 108,
    },
    Case {
        name: b"width 65\n",
        job: Grid {
            rows: 1,
            width: 65,
            grid: 1,
            side: 1,
            first: b'A',
        },
        shown: 12,
    },
];

fn show_cases(output: &mut Stdout) {
    for case in CASES {
        put(output, case.name);
        let job = case.job.built();
        answer_twice(output, &job[..case.job.size()], case.shown);
    }
}

// A distance area that is one number short: check 1 refuses the job, and everything is cleared all the same.
fn area_short(output: &mut Stdout, job: &[u8]) {
    put(output, b"distance area one short\n");
    answer_within(output, job, 12, 165, &mut [0u16; 16383]);
}

// The first example of the paper: A, B, C, D, with its weights, at epsilon 0.
fn first_example(output: &mut Stdout) {
    put(output, b"example 1 of the paper\n");
    let job =
        b"\x04\0\x05\0\0\0\x0c\0\x16\0\x2a\0\x01\0\x03\0\x02\0\x01\0\x02\000000110001011001101";
    answer_twice(output, job, 137);
    area_short(output, job);
}

fn show(output: &mut Stdout) {
    show_cases(output);
    first_example(output);
}

fn main(rt: HostRuntime) {
    show(&mut rt.stdout());
}
