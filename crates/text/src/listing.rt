// The corner of a network's lines: its own, one for each type, one for each link, as a result block gives them. Job and block are only
// read; the lines go behind what is written.

ghost use Rattle.std.specs.Prelude.{◌+◌, ◌*◌, ◌≤◌, ◌<◌, length};
ghost use Rattle.rules.specs.Result.{records_offset, link_size};
ghost use Rattle.rules.specs.Job.{word};
ghost use Rattle.rules.specs.Lookup.{types_in};
ghost use Rattle.memory.specs.Placed.{Follows};
ghost use Rattle.text.specs.Lines.{Legible, network_line_of, type_line_of, type_lines_of, link_line_of, link_lines_of};

use crate::template::fill;
use lookup::states_in;
use memory::decimals::{put, say};
use memory::word_at;
use rules::{LINK_SIZE, RECORD_SIZE, RECORDS_OFFSET};

// The line of the network: types, sampled, links, rounds. What is handed back, here and below, is the place behind it.
pub fn put_network_line(block: &[u8], out: &mut [u8], at: usize) -> usize
    requires { (records_offset ≤ length block.now) × (at + length (network_line_of block.now) ≤ length out.old) }
    ensures { Follows out.old at (network_line_of block.now) out.new result }
{
    let numbers = [
        word_at(block, 0),
        word_at(block, 2),
        word_at(block, 6),
        word_at(block, 8),
    ];
    fill(
        out,
        at,
        b"types \x00 sampled \x01 links \x02 rounds \x03\n",
        &numbers,
        b"",
    )
}

// RULES 15.2: the line of a type. Job and block have one lifetime here and below, since the states are a part of either.
fn put_type_line<'a>(job: &'a [u8], block: &'a [u8], k: usize, out: &mut [u8], at: usize) -> usize
    requires { Legible job.now block.now × (k < types_in block.now) × (at + length (type_line_of job.now block.now k) ≤ length out.old) }
    ensures { Follows out.old at (type_line_of job.now block.now k) out.new result }
{
    let from = RECORDS_OFFSET + RECORD_SIZE * k;
    let states = states_in(job, block, k);
    if k < word_at(block, 2) {
        let numbers = [k, word_at(block, from)];
        return fill(out, at, b"T \x00 S \x01 \x02\n", &numbers, states);
    }
    let numbers = [k, word_at(block, from + 4)];
    fill(out, at, b"T \x00 I \x01 \x02\n", &numbers, states)
}

pub fn put_type_lines<'a>(job: &'a [u8], block: &'a [u8], out: &mut [u8], at: usize) -> usize
    requires { Legible job.now block.now × (at + length (type_lines_of job.now block.now) ≤ length out.old) }
    ensures { Follows out.old at (type_lines_of job.now block.now) out.new result }
{
    let mut at = at;
    for k in 0..word_at(block, 0) {
        at = put_type_line(job, block, k, out, at);
    }
    at
}

// The line of a link: lower, higher, length. It is written part by part, since most lines are links, and marks take longer.
fn put_link_line(block: &[u8], from: usize, out: &mut [u8], at: usize) -> usize
    requires { (from + link_size ≤ length block.now) × (at + length (link_line_of block.now from) ≤ length out.old) }
    ensures { Follows out.old at (link_line_of block.now from) out.new result }
{
    let at = say(out, at, b"L ", word_at(block, from));
    let at = say(out, at, b" ", word_at(block, from + 2));
    let at = say(out, at, b" ", word_at(block, from + 4));
    put(out, at, b"\n")
}

pub fn put_link_lines(block: &[u8], out: &mut [u8], at: usize) -> usize
    requires records_offset_in_bounds { (records_offset ≤ length block.now) × (word block.now 14 + link_size * word block.now 6 ≤ length block.now) }
    requires block_in_bounds { at + length (link_lines_of block.now) ≤ length out.old }
    ensures { Follows out.old at (link_lines_of block.now) out.new result }
{
    let from = word_at(block, 14);
    let mut at = at;
    for k in 0..word_at(block, 6) {
        at = put_link_line(block, from + LINK_SIZE * k, out, at);
    }
    at
}
