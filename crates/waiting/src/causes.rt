// What is said on standard error: remarks, and why something failed.
ghost use Rattle.std.specs.Prelude.{◌≤◌, length};

use std::io::{Error, Print, Stderr, Write};

// Writes to standard error, where that can be.
pub fn remark(errors: Stderr, words: &[u8]) {
    let _ = errors.write_all(words);
}

// The text of an error, as much of it as there is room for: how many bytes that are.
fn text_of(why: Error, room: &mut [u8]) -> usize
    ensures { result ≤ length room.new }
{
    let size = room.len();
    let mut left = room;
    let _ = write!(left, "{why}");
    size.saturating_sub(left.len())
}

// The system's own words, the text before the number that ends it, as in `No such file or directory (os error 2)`.
fn words_of(text: &[u8]) -> &[u8]
    ensures { length result.now ≤ length text.now }
{
    let number: &[u8] = b" (os error ";
    let start = text.windows(number.len()).position(|part| part == number);
    match start {
        Some(n) => &text[..n],
        None => text,
    }
}

// A line on standard error: what failed, a colon and the system's word for why.
pub fn fail(errors: Stderr, what: &[u8], why: Error) {
    let mut room = [0u8; 256];
    let n = text_of(why, &mut room);
    remark(errors, what);
    remark(errors, b": ");
    remark(errors, words_of(&room[..n]));
    remark(errors, b"\n");
}
