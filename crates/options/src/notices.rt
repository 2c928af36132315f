// What the program says of itself and its file: answers on standard output, causes and usage on standard error.
use super::{Fault, argument};
use std::env::FillError;
use std::fmt::Display;
use std::io::{Error, IsTerminal, Print};
use std::rt::Env;
use waiting::{Streams, causes};

fn answer(streams: Streams, words: &[u8]) {
    let _ = streams.output.write_all(words);
}

fn answer_number(streams: Streams, n: u64) {
    let _ = streams.output.print(n);
}

fn remark(streams: Streams, words: &[u8]) {
    causes::remark(streams.errors, words);
}

fn remark_number(streams: Streams, n: u64) {
    let _ = streams.errors.print(n);
}

// The end of the word for n things.
fn plural(n: usize) -> &'static [u8] {
    if n == 1 { b"" } else { b"s" }
}

// ---- what it is asked

fn unknown<R: Env>(rt: &R, streams: Streams, i: usize) {
    let mut room = [0u8; 4096];
    let n = argument(rt, i, &mut room);
    remark(streams, b"option not understood: ");
    remark(streams, &room[..n]);
}

// A fault in the arguments, with the usage, in one line.
pub fn usage<R: Env>(rt: &R, streams: Streams, fault: Fault) {
    remark(streams, b"card: ");
    match fault {
        Fault::Unknown(i) => unknown(rt, streams, i),
        Fault::NoName => remark(streams, b"the journal's name is missing"),
        Fault::ManyWords => remark(streams, b"too many words"),
        Fault::NotSlots => remark(streams, b"SLOTS is a number from 1 to 2048"),
    }
    remark(
        streams,
        b"; usage: card [JOURNAL], card --new SLOTS JOURNAL, card --read-only JOURNAL, card --help, card --version\n",
    );
}

pub fn help(streams: Streams) {
    answer(
        streams,
        b"\
card                       a journal of 2048 slots in memory
card JOURNAL               the journal in that file
card --new SLOTS JOURNAL   makes that file, 1 to 2048 slots, and uses it
card --read-only JOURNAL   the journal in that file, which isn't changed
card --help, --version     this text; the library's version
-- ends the options. Commands are read from standard input, one a line.
",
    );
}

pub fn version(streams: Streams) {
    answer(streams, b"goltwarden ");
    answer_number(streams, version::number() as u64);
    answer(streams, b"\n");
}

// Without a standard output nothing is opened.
pub fn unheard(streams: Streams) {
    remark(
        streams,
        b"card: no line is taken: standard output is closed, or /dev/null can't be opened\n",
    );
}

// ---- its file

// The system's number for a name that is too long.
const ENAMETOOLONG: i32 = 36;

// A name that can't be a file's: an empty one, or one too long.
pub fn nameless(streams: Streams, why: FillError) {
    match why {
        FillError::NotPresent => remark(streams, b"card: the journal's name is empty\n"),
        FillError::TooLong => {
            let why = Error::from_raw_os_error(ENAMETOOLONG);
            causes::fail(streams.errors, b"card: the journal's name", why);
        }
    }
    answer(streams, b"disk error: the journal could not be opened\n");
}

// What could not be done with the journal, and why.
pub fn failed(streams: Streams, name: &[u8], what: impl Display + Drop, why: Error) {
    remark(streams, b"card: ");
    causes::fail(streams.errors, name, why);
    let _ = streams.output.println(format_args!("disk error: the journal could not be {what}"));
}

// How a journal is made, where there was none.
pub fn missing(streams: Streams) {
    remark(
        streams,
        b"card: a journal is made by card --new SLOTS JOURNAL\n",
    );
}

pub fn in_use(streams: Streams, name: &[u8], pid: u64) {
    remark(streams, b"card: ");
    remark(streams, name);
    remark(streams, b" is in use by process ");
    remark_number(streams, pid);
    remark(streams, b"\n");
    answer(streams, b"disk error: the journal is in use\n");
}

// ---- what it finds in its file

pub fn at_terminal(streams: Streams) -> bool {
    streams.input.is_terminal() && streams.output.is_terminal()
}

fn greeting(streams: Streams, name: &[u8], length: usize) {
    let slots = length / 32;
    answer(streams, name);
    answer(streams, b": ");
    answer_number(streams, slots as u64);
    answer(streams, b" slot");
    answer(streams, plural(slots));
    answer(streams, b", ");
}

pub fn formed(streams: Streams, name: &[u8], length: usize, held: u32) {
    if at_terminal(streams) {
        greeting(streams, name, length);
        answer_number(streams, held as u64);
        answer(streams, b" held\n");
    }
}

// How many bytes a file of a wrong length has, and what a journal has.
fn wrong_length(streams: Streams, name: &[u8], length: usize) {
    remark(streams, b"card: ");
    remark(streams, name);
    remark(streams, b": ");
    if 65536 < length {
        remark(streams, b"over 65536 bytes");
    } else {
        remark_number(streams, length as u64);
        remark(streams, b" byte");
        remark(streams, plural(length));
    }
    remark(
        streams,
        b"; a journal has 32 for each of its 1 to 2048 slots\n",
    );
}

pub fn malformed(streams: Streams, name: &[u8], length: usize) {
    if !slots::is_sized(length) {
        wrong_length(streams, name, length);
    } else if at_terminal(streams) {
        greeting(streams, name, length);
        answer(streams, b"not well formed\n");
    }
}
