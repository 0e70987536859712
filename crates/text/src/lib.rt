// The room of the printed text: the lines of a network (its corner `listing`) or of a refusal, built from a job, its result block and its
// answer into memory that is lent. Job and block are only read.

#![tactic(auto)]

pub mod listing;
pub mod template;

ghost use Rattle.std.specs.Prelude.{◌≡◌, ◌≤◌, IsErr, OkIff, length, replicate};
ghost use Rattle.std.specs.Prelude.{Err};
ghost use Rattle.memory.specs.Placed.{Follows};
ghost use Rattle.text.specs.Lines.{Legible, legible, network_of};
ghost use Rattle.text.specs.declared.Unprinted.TheVariants.{Short};
ghost use Rattle.text.specs.Printed.{ToldText, refusal_of, line_room, network_room, brief_room, Suffices, RefusalWithin, RefusalLeft, TextWithin, TextLeft, BriefLeft};

use crate::listing::{put_link_lines, put_network_line, put_type_lines};
use crate::template::fill;
use answers::{Told, refusal, tell};
use lookup::matching::block_matches;
use memory::{clear, word_at};
use rules::{Answer, LINK_SIZE, MOST_LINKS, RECORDS_OFFSET};

// So many bytes are enough for every text.
pub const TEXT_ROOM: usize = 172718;

// Why there is no text: without the room that is asked for, or without a result block of this job to print.
#[derive(Clone, Copy, PartialEq, Eq, Debug)]
pub enum Unprinted {
    Short,
    Block,
}

// How a text ends: with so many bytes, or without a text.
pub type Printed = Result<usize, Unprinted>;

// Its number, its place, and the bytes used. (No `From`: neither `Result` nor `Told` is this crate's own.)
pub fn tell_text(printed: Printed) -> Told
    ensures { ToldText printed result }
{
    match printed {
        Ok(used) => Told {
            number: 0,
            place: 0,
            used,
        },
        Err(Unprinted::Short) => refusal(80, 0),
        Err(Unprinted::Block) => refusal(81, 0),
    }
}

// Whether the block is one that can be read back with this job, of at most 8,128 links.
fn is_legible(job: &[u8], block: &[u8]) -> bool
    ensures { result ≡ legible job.now block.now }
{
    if !block_matches(job, block) {
        return false;
    }
    let l = word_at(block, 6);
    l <= MOST_LINKS && word_at(block, 14) + LINK_SIZE * l <= block.len()
}

// A refusal is one line.
fn put_refusal(number: usize, place: usize, out: &mut [u8]) -> usize
    requires { line_room ≤ length out.old }
    ensures { Follows out.old 0 (refusal_of number place) out.new result }
{
    let numbers = [number, place];
    fill(out, 0, b"refused \x00 \x01\n", &numbers, b"")
}

fn put_network<'a>(job: &'a [u8], block: &'a [u8], out: &mut [u8]) -> usize
    requires { Legible job.now block.now × (network_room block.now ≤ length out.old) }
    ensures { Follows out.old 0 (network_of job.now block.now) out.new result }
{
    let at = put_network_line(block, out, 0);
    let at = put_type_lines(job, block, out, at);
    put_link_lines(block, out, at)
}

// Zeros to the end, if there are so many bytes.
fn make_room(room: usize, out: &mut [u8]) -> Result<(), Unprinted>
    ensures zeros { out.new ≡ replicate (length out.old) 0 }
    ensures roomy { OkIff result (room ≤ length out.old) tt }
    ensures short { IsErr result → result ≡ Err Short }
{
    clear(out, 0);
    if out.len() < room {
        return Err(Unprinted::Short);
    }
    Ok(())
}

// The line of a refusal where so many bytes are lent. Zeros follow it to the end; without a text there are zeros throughout.
fn refusal_within(number: usize, place: usize, room: usize, out: &mut [u8]) -> Printed
    requires { line_room ≤ room }
    ensures { RefusalWithin number place room (length out.old) out.new result }
{
    make_room(room, out)?;
    Ok(put_refusal(number, place, out))
}

// The line of a refusal, whatever was refused, where there is room for every text.
pub fn refusal_text(number: usize, place: usize, out: &mut [u8]) -> Printed
    ensures { RefusalLeft number place (length out.old) out.new result }
{
    refusal_within(number, place, TEXT_ROOM, out)
}

// The text of an answer where so many bytes are lent: the network in the result block, read with its job, or the refusal. Zeros follow it
// here too.
fn text_within<'a>(
    job: &'a [u8],
    block: &'a [u8],
    answer: Answer,
    room: usize,
    out: &mut [u8],
) -> Printed
    requires { Suffices job.now block.now answer room }
    ensures { TextWithin job.now block.now answer room (length out.old) out.new result }
{
    if answer.is_err() {
        let told = tell(answer);
        return refusal_within(told.number, told.place, room, out);
    }
    make_room(room, out)?;
    if !is_legible(job, block) {
        return Err(Unprinted::Block);
    }
    Ok(put_network(job, block, out))
}

// The text of an answer, where there is room for every text.
pub fn text<'a>(job: &'a [u8], block: &'a [u8], answer: Answer, out: &mut [u8]) -> Printed
    ensures { TextLeft job.now block.now answer (length out.old) out.new result }
{
    text_within(job, block, answer, TEXT_ROOM, out)
}

// The bytes that are enough for the text of this answer, by the numbers of types and links that the block says.
fn brief_room(block: &[u8], answer: Answer) -> usize
    ensures { result ≡ brief_room block.now answer }
{
    if answer.is_err() {
        return 50;
    }
    if block.len() < RECORDS_OFFSET {
        return 0;
    }
    46 + 79 * word_at(block, 0) + 20 * word_at(block, 6)
}

// The text of an answer, where there is room for this one. A small network needs little memory so.
pub fn brief<'a>(job: &'a [u8], block: &'a [u8], answer: Answer, out: &mut [u8]) -> Printed
    ensures { BriefLeft job.now block.now answer (length out.old) out.new result }
{
    let room = brief_room(block, answer);
    text_within(job, block, answer, room, out)
}
