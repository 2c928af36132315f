// Swipes on dates that no command keeps, outside 2000 to 2099 or no real day, and on days beside them.
use crate::{answered, swiped, terms};
use dates::Date;
use samples::{EVERY, NONE, W11};
use say::Output;

// `;4111111111111111==101?` and its LRC, 120 bits: a card without an expiry.
const LASTING: [u8; 15] = *b"\x8B\x84\x10\x42\x08\x21\x84\x10\x42\x08\xA1\xB5\x00\xC3\x0F";

fn swipe(out: &mut Output, stream: &[u8], bits: u64, amount: u32, date: Date) {
    let numbers = [
        amount as u64,
        date.year as u64,
        date.month as u64,
        date.day as u64,
    ];
    say::sentence(out, b" for # on # # #: ", &numbers);
    answered(
        out,
        swiped(stream, bits, terms(&EVERY, &NONE, 16), amount, date),
    );
}

// W11, which expires in December 2025, on a date.
fn on(out: &mut Output, amount: u32, year: u32, month: u32, day: u32) {
    say::words(out, b"swipe of W11");
    swipe(out, &W11, 135, amount, Date { year, month, day });
}

// The card without an expiry, on the first of January.
fn lasting_in(out: &mut Output, year: u32) {
    let date = Date {
        year,
        month: 1,
        day: 1,
    };
    say::words(out, b"swipe of a card without an expiry");
    swipe(out, &LASTING, 120, 250, date);
}

// The ends of the century, and of the card's time.
fn ends(out: &mut Output) {
    on(out, 250, 1999, 12, 31);
    on(out, 250, 2000, 1, 1);
    on(out, 250, 2025, 12, 31);
    on(out, 250, 2026, 1, 1);
    on(out, 250, 2099, 12, 31);
    on(out, 250, 2100, 1, 1);
    lasting_in(out, 2099);
    lasting_in(out, 2100);
}

// Days, months and years that aren't there; a day in February that is there in leap years alone.
fn not_there(out: &mut Output) {
    on(out, 250, 2025, 12, 0);
    on(out, 250, 2025, 12, 32);
    on(out, 250, 2025, 0, 1);
    on(out, 250, 2025, 13, 1);
    on(out, 250, 0, 1, 1);
    on(out, 250, 4294967295, 4294967295, 4294967295);
    on(out, 250, 2024, 2, 29);
    on(out, 250, 2023, 2, 29);
}

// A wrong date comes after an amount of 0.
pub fn run(out: &mut Output) {
    say::words(
        out,
        b"\n# Wrong dates, which no command keeps, and days beside them\n",
    );
    ends(out);
    not_there(out);
    on(out, 0, 1999, 12, 31);
}
