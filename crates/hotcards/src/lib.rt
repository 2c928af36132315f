// The commands of the hot list: a list from a line, and whether a card is on the one that is kept.
#![tactic(auto)]

ghost use Rattle.std.specs.Prelude.{◌≤◌, length, IfSome};

use reasons::Reason;
use say::{Output, fields};

// The list that is kept: how many numbers of its buffer are in use, and the PAN length.
#[derive(Clone, Copy)]
pub struct Kept {
    pub count: usize,
    pub digits: u32,
}

// An empty list.
pub fn none() -> Kept {
    Kept {
        count: 0,
        digits: 16,
    }
}

// The numbers of a buffer that are in use: n of them, or all.
pub fn in_use(list: &[u64], n: usize) -> &[u64] {
    list.get(..n).unwrap_or(list)
}

// ---- a list from a line

// The numbers that words write, into the front of the room. Those beyond it are read too, and not kept. None where a word isn't understood,
// which is answered.
fn numbers(out: &mut Output, words: &[u8], room: &mut [u64]) -> Option<usize>
    ensures { IfSome result (λ n. n ≤ length room.new) }
{
    let mut n = 0;
    let mut at = 0;
    while at < words.len() {
        let word = script::word_at(words, at);
        let number = fields::number_of(out, word, u64::MAX)?;
        if let Some(place) = room.get_mut(n) {
            *place = number;
            n += 1;
        }
        at = at + word.len() + 1;
    }
    Some(n)
}

// Keeps numbers as the list, over the front of its buffer, or refuses them.
fn keep(
    out: &mut Output,
    numbers: &[u64],
    digits: u32,
    list: &mut [u64; 8192],
    kept: Kept,
) -> Kept {
    if !hotlist::inner::list_ok(numbers, digits) {
        say::refused(out, Reason::BadHotList);
        return kept;
    }
    let count = numbers.len();
    list[..count].copy_from_slice(numbers);
    say::sentence(out, b"hot # numbers\n", &[count as u64]);
    Kept { count, digits }
}

// Takes a list from a line. The answer is what is kept from now on: what was kept before where the line isn't understood or the list is
// refused. The room holds one number more than a list may have: enough to refuse a longer one.
pub fn take_in(out: &mut Output, line: &[u8], list: &mut [u64; 8192], kept: Kept) -> Kept {
    let Some(digits) = fields::number(out, line, 1, 4294967295) else {
        return kept;
    };
    let mut room = [0u64; 8193];
    let Some(n) = numbers(out, script::from_word(line, 2), &mut room) else {
        return kept;
    };
    keep(out, &room[..n], digits as u32, list, kept)
}

// ---- a card

pub fn listed(out: &mut Output, list: &[u64], digits: u32, pan: &[u8]) {
    match hotlist::find(list, digits, pan) {
        Ok(true) => say::words(out, b"yes\n"),
        Ok(false) => say::words(out, b"no\n"),
        Err(why) => say::refused(out, why),
    }
}
