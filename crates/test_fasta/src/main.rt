// The stored FASTA texts: each is turned into a job, and what is left in the memory that is lent for the job is looked for. Arguments come
// in threes: how many bytes are lent, epsilon, and the name of a file. Printed are the number, the place and the bytes used, then the block.

#![tactic(auto)]

ghost use Rattle.std.specs.Prelude.{◌≤◌, length, IfSome};

use answers::Told;
use fasta::conversion::tell_conversion;
use fasta::make_job;
use memory::numerals::read_number;
use std::io::Stdout;
use std::rt::{Env, Files};
use streams::arguments::{argument, argument_count};
use streams::files::open;
use streams::printing::{print_decimal, write_all};
use streams::reading::{came, read_full};
use streams::{Console, NAME_ROOM, Terminal, buffer};

// Where a write fails, what comes behind it is written all the same.
fn put(output: &mut Stdout, bytes: &[u8]) {
    let _ = write_all(output, bytes);
}

// A number in decimal, and what comes behind it.
fn put_number(output: &mut Stdout, number: usize, behind: &[u8]) {
    let _ = print_decimal(output, number);
    put(output, behind);
}

// The number, the place and the bytes used, in decimal.
fn print_told(output: &mut Stdout, told: Told) {
    put_number(output, told.number, b" ");
    put_number(output, told.place, b" ");
    put_number(output, told.used, b"\n");
}

// Whether all bytes from a place up to another have a value.
fn filled(bytes: &[u8], from: usize, to: usize, value: u8) -> bool {
    bytes.iter().take(to).skip(from).all(|byte| *byte == value)
}

// The job of a text, in memory of which a part is lent. The memory is not clear, so that what is left in the part, and what is written past
// it, shows.
fn show(output: &mut Stdout, text: &[u8], epsilon: u16, lent: usize, job: &mut [u8])
    requires { lent ≤ length job.old }
{
    let told = tell_conversion(make_job(text, epsilon, &mut job[..lent]));
    print_told(output, told);
    let used = told.used;
    if used <= lent {
        put(output, &job[..used]);
    } else {
        put(output, b"more is used than was lent\n");
    }
    if !filled(job, used, lent, 0) {
        put(output, b"something is left in the memory\n");
    }
    if !filled(job, lent, job.len(), 165) {
        put(output, b"memory past the job was written\n");
    }
}

// The text in the file that argument k names. A stored text has at most the 65,536 bytes of the buffer.
fn show_file(rt: &(impl Env + Files), console: &mut Terminal, k: usize, epsilon: u16, lent: usize)
    requires { lent ≤ 17000 }
{
    let mut path = buffer::<NAME_ROOM>();
    let n = argument(rt, k, &mut path).unwrap_or(0);
    let Some(mut file) = open(rt, &path[..n], &mut console.errors) else {
        return;
    };
    let mut text = buffer::<65536>();
    let n = came(read_full(&mut file, &mut text));
    let mut job = [165u8; 17000];
    show(&mut console.output, &text[..n], epsilon, lent, &mut job);
}

// The number that argument k says. One that is missing, empty or too long leaves no bytes, and those write no number.
fn number(environment: &impl Env, k: usize) -> Option<u16> {
    let mut word = buffer::<NAME_ROOM>();
    let n = argument(environment, k, &mut word).unwrap_or(0);
    read_number(&word[..n])
}

// The lent length that argument k says, if it says one.
fn lent_length(environment: &impl Env, k: usize) -> Option<usize>
    ensures { IfSome result (λ n. n ≤ 17000) }
{
    match number(environment, k) {
        Some(value) if value <= 17000 => Some(value as usize),
        _ => None,
    }
}

// The job of three arguments, by their places.
fn show_job(
    rt: &(impl Env + Files),
    console: &mut Terminal,
    lent_at: usize,
    epsilon_at: usize,
    file_at: usize,
) {
    let Some(lent) = lent_length(rt, lent_at) else {
        console.complain(b"test_fasta: the lent length is not a decimal number from 0 to 17000\n");
        return;
    };
    match number(rt, epsilon_at) {
        Some(value) => show_file(rt, console, file_at, value, lent),
        None => console.complain(
            b"test_fasta: the epsilon is not a decimal number from 0 to 65535\n",
        ),
    }
}

// Arguments are counted with the name of the program, which is the first.
fn main(rt: HostRuntime) {
    let mut console = Console {
        output: rt.stdout(),
        errors: rt.stderr(),
    };
    let count = argument_count(&rt);
    for k in (1..count).step_by(3) {
        if count - k < 3 {
            console.complain(
                b"test_fasta: arguments come in threes, bytes lent, epsilon and a file\n",
            );
            return;
        }
        show_job(&rt, &mut console, k, k + 1, k + 2);
    }
}
