// The host's date, and the days that a card has left on it.
#![tactic(auto)]

pub mod inner;

ghost use Rattle.std.specs.Prelude.{◌≡◌};
ghost use Rattle.reasons.specs.Reasons.{said};
ghost use Rattle.dates.specs.Dates.{date_rule};

use reasons::Reason;

// A date as the host sends it: any three numbers.
#[derive(Clone, Copy, Debug, PartialEq, Eq)]
pub struct Date {
    pub year: u32,
    pub month: u32,
    pub day: u32,
}

// Whether a date is a real day of the years 2000 to 2099.
pub fn test(date: Date) -> Result<(), Reason>
    ensures { said result ≡ date_rule date }
{
    if inner::is_real(date) {
        return Ok(());
    }
    Err(Reason::BadDate)
}
