// For the crates above: days counted, once date and expiry have been tested.
ghost use Rattle.std.specs.Prelude.{◌≡◌, true, ◌≤◌};
ghost use Rattle.layout.specs.Layout.{is_expiry};
ghost use Rattle.layout.specs.Grammar.{Passes, field_in};
ghost use Rattle.dates.specs.Dates.{leap, days_in, real, months_before, day_number, last_day, days_rule, left_rule};
ghost use Rattle.reasons.specs.Reasons.{said};

use crate::Date;
use reasons::Reason;

// ---- the calendar

// The days of a month of the years 2000 to 2099, in which every fourth year is a leap year; none where there is no such month.
fn days_in(year: u32, month: u32) -> u32
    requires { (2000 ≤ year) × (year ≤ 2099) }
    ensures { result ≡ days_in (leap year) month }
{
    match month {
        1 | 3 | 5 | 7 | 8 | 10 | 12 => 31,
        4 | 6 | 9 | 11 => 30,
        2 => if year % 4 == 0 { 29 } else { 28 },
        _ => 0,
    }
}

// Whether there is such a day in the years 2000 to 2099.
pub fn is_real(date: Date) -> bool
    ensures { result ≡ real date }
{
    if date.year < 2000 {
        return false;
    }
    if 2099 < date.year {
        return false;
    }
    if date.day < 1 {
        return false;
    }
    date.day <= days_in(date.year, date.month)
}

// The days of the months before one.
fn days_before(year: u32, month: u32) -> u32
    requires { (2000 ≤ year) × (year ≤ 2099) × (1 ≤ month) × (month ≤ 12) }
    ensures { result ≡ months_before (leap year) month }
{
    let mut days = 0;
    for m in 1..month {
        days += days_in(year, m);
    }
    days
}

// The days from 1 January 2000 to a real day: a year has 365, and of n years from 2000 on every fourth has one more, the first among them.
fn day_number(date: Date) -> u32
    requires { real date ≡ true }
    ensures { result ≡ day_number date }
{
    let n = date.year - 2000;
    365 * n + (n + 3) / 4 + days_before(date.year, date.month) + (date.day - 1)
}

// ---- the card

// The last day on which a card is good whose expiry is four digits YYMM.
fn last_day(expiry: &[u8]) -> Date
    requires { is_expiry expiry.now ≡ true }
    ensures { result ≡ last_day expiry.now }
{
    let year = 2000 + text::decimal(&expiry[0..2]) as u32;
    let month = text::decimal(&expiry[2..4]) as u32;
    Date {
        year,
        month,
        day: days_in(year, month),
    }
}

// The days left on a real day, of a card whose expiry is four digits YYMM.
fn days_left(date: Date, expiry: &[u8]) -> Result<Option<u32>, Reason>
    requires { (real date ≡ true) × (is_expiry expiry.now ≡ true) }
    ensures { said result ≡ days_rule date expiry.now }
{
    let last = day_number(last_day(expiry));
    let today = day_number(date);
    if last < today {
        return Err(Reason::ExpiredCard);
    }
    Ok(Some(last - today))
}

// The days left on a real day, of a card whose expiry, if it has one, stands in its characters at a place; no number where it has none.
pub fn left_on(date: Date, chars: &[u8], expiry: Option<usize>) -> Result<Option<u32>, Reason>
    requires { (real date ≡ true) × Passes is_expiry (field_in 4 chars.now expiry) }
    ensures { said result ≡ left_rule date (field_in 4 chars.now expiry) }
{
    match expiry {
        None => Ok(None),
        Some(at) => {
            let end = at + 4;
            days_left(date, &chars[at..end])
        }
    }
}
