// Lines for people: words, texts, numbers, bytes, and what an answer says. They wait to be written out (`waiting`).
#![tactic(auto)]

pub mod fields;

use reasons::Reason;
use std::fmt::Write;
pub use waiting::Output;

pub fn words(out: &mut Output, s: &[u8]) {
    out.put_all(s);
}

fn number(out: &mut Output, n: u64) {
    let _ = write!(out, "{n}");
}

// A number with its name before it.
pub fn value(out: &mut Output, name: &[u8], n: u64) {
    words(out, name);
    number(out, n);
}

// Words with numbers among them: each `#` stands for the next of the numbers, for none where there are no more; those left over are not written.
pub fn sentence(out: &mut Output, form: &[u8], numbers: &[u64]) {
    let mut left = numbers.iter();
    for &b in form {
        if b != b'#' {
            out.put(b);
        } else if let Some(&n) = left.next() {
            number(out, n);
        }
    }
}

pub fn line(out: &mut Output) {
    words(out, b"\n");
}

// A text, `-` for the empty one.
fn text(out: &mut Output, s: &[u8]) {
    if s.is_empty() {
        words(out, b"-");
    } else {
        words(out, s);
    }
}

// A text with its name before it.
pub fn named(out: &mut Output, name: &[u8], s: &[u8]) {
    words(out, name);
    text(out, s);
}

// So many stars, nine at most.
pub fn stars(out: &mut Output, n: usize) {
    words(out, text::piece(b"*********", 0, n));
}

// Bytes in hexadecimal.
pub fn hex(out: &mut Output, s: &[u8]) {
    for &b in s {
        words(out, &numerals::hex_of(b));
    }
}

// A text that may hold spaces, in hexadecimal with its name before it; `-` for the empty one.
pub fn named_hex(out: &mut Output, name: &[u8], s: &[u8]) {
    words(out, name);
    if s.is_empty() {
        words(out, b"-");
    } else {
        hex(out, s);
    }
}

// A refusal without the end of its line: its number and the reason in words.
pub fn refusal(out: &mut Output, why: Reason) {
    value(out, b"refused ", reasons::number(why) as u64);
    words(out, b": ");
    words(out, reasons::words(why).as_bytes());
}

pub fn refused(out: &mut Output, why: Reason) {
    refusal(out, why);
    line(out);
}

pub fn tested(out: &mut Output, t: Result<(), Reason>) {
    match t {
        Ok(()) => words(out, b"passes\n"),
        Err(why) => refused(out, why),
    }
}
