// Words of a line as numbers and bytes; a word that isn't understood is answered here.
ghost use Rattle.std.specs.Prelude.{◌≤◌, length, IfSome};

use super::{Output, line, words};
use numerals::Unclear;

pub fn unclear(out: &mut Output, why: &[u8]) {
    words(out, b"not understood: ");
    words(out, why);
    line(out);
}

fn unclear_word(out: &mut Output, why: Unclear) {
    match why {
        Unclear::NotNumber => unclear(out, b"not a number"),
        Unclear::LargeNumber => unclear(out, b"number too large"),
        Unclear::NotBytes => unclear(out, b"not bytes in hexadecimal"),
        Unclear::ManyBytes => unclear(out, b"too many bytes"),
    }
}

// A word as a number, no more than `most`; none where it isn't understood, which is answered.
pub fn number_of(out: &mut Output, word: &[u8], most: u64) -> Option<u64>
    ensures { IfSome result (λ n. n ≤ most) }
{
    match numerals::number_in(word, most) {
        Ok(n) => Some(n),
        Err(why) => {
            unclear_word(out, why);
            None
        }
    }
}

// Word k of a line as a number.
pub fn number(out: &mut Output, text: &[u8], k: usize, most: u64) -> Option<u64>
    ensures { IfSome result (λ n. n ≤ most) }
{
    number_of(out, script::word(text, k), most)
}

// A word as bytes, into the front of a buffer: how many; none where it isn't understood, which is answered.
pub fn bytes_of(out: &mut Output, word: &[u8], room: &mut [u8]) -> Option<usize>
    ensures { IfSome result (λ n. n ≤ length room.new) }
{
    match numerals::bytes_in(script::text_of(word), room) {
        Ok(n) => Some(n),
        Err(why) => {
            unclear_word(out, why);
            None
        }
    }
}

// Word 1 of a line as bytes.
pub fn bytes(out: &mut Output, text: &[u8], room: &mut [u8]) -> Option<usize>
    ensures { IfSome result (λ n. n ≤ length room.new) }
{
    bytes_of(out, script::word(text, 1), room)
}
