// Text, numbers and answers, printed. Where a write fails, what comes behind it is written all the same.

use answers::Told;
use std::io::Stdout;
use streams::printing::{print_decimal, write_all};

pub(crate) fn put(output: &mut Stdout, text: &[u8]) {
    let _ = write_all(output, text);
}

// A number, with text before it.
pub(crate) fn number(output: &mut Stdout, before: &[u8], x: usize) {
    put(output, before);
    let _ = print_decimal(output, x);
}

// The end of a line: an answer's number and place.
pub(crate) fn answer(output: &mut Stdout, told: Told) {
    number(output, b": ", told.number);
    number(output, b" ", told.place);
    put(output, b"\n");
}
