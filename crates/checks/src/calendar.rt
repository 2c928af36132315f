// The host's date.
use dates::Date;
use say::{Output, fields};

// Before the host has sent one: no real day, so that a swipe is refused with 23.
pub fn none() -> Date {
    Date {
        year: 0,
        month: 0,
        day: 0,
    }
}

// Keeps a date, or refuses it.
fn keep(out: &mut Output, date: Date, kept: Date) -> Date {
    match dates::test(date) {
        Ok(()) => {
            let numbers = [date.year as u64, date.month as u64, date.day as u64];
            say::sentence(out, b"date # # #\n", &numbers);
            date
        }
        Err(why) => {
            say::refused(out, why);
            kept
        }
    }
}

// A date from a line; none where a number isn't understood, which is answered.
fn date_in(out: &mut Output, line: &[u8]) -> Option<Date> {
    let year = fields::number(out, line, 1, 4294967295)? as u32;
    let month = fields::number(out, line, 2, 4294967295)? as u32;
    let day = fields::number(out, line, 3, 4294967295)? as u32;
    Some(Date { year, month, day })
}

// Takes a date from a line. The answer is what is kept from now on: what was kept before where the line isn't understood or the date is
// refused.
pub fn take_in(out: &mut Output, line: &[u8], kept: Date) -> Date {
    match date_in(out, line) {
        Some(date) => keep(out, date, kept),
        None => kept,
    }
}
