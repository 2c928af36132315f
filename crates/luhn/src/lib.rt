// The Luhn check digit (ISO/IEC 7812-1): testing a text, and making the digit for a body.
#![tactic(auto)]

ghost use Rattle.std.specs.Prelude.{◌≡◌, ◌≤◌};
ghost use Rattle.reasons.specs.Reasons.{said};
ghost use Rattle.luhn.specs.Luhn.{weighed, luhn_rule, make_rule};
ghost use Rattle.luhn.specs.Sum.{sum_rule};

use reasons::Reason;

// What a digit adds to the sum.
#[tactic(auto, unfolding(crate::specs::Luhn::weighed))]
fn weigh(twice: bool, d: u32) -> u32
    requires { d ≤ 9 }
    ensures { result ≡ weighed twice d }
{
    if twice {
        if d <= 4 { 2 * d } else { 2 * d - 9 }
    } else {
        d
    }
}

// The sum of a text of `least` to `most` digits, from the right. `double` says whether the last digit is doubled.
// The sum is proved to fit for up to 100 digits, more than any call allows: what refuses a 41st is the rule alone.
fn sum(text: &[u8], least: usize, most: usize, double: bool) -> Result<u32, Reason>
    requires { most ≤ 100 }
    ensures { said result ≡ sum_rule least most double text.now }
{
    if text.len() < least {
        return Err(Reason::BadCount);
    }
    if most < text.len() {
        return Err(Reason::BadCount);
    }
    let mut total: u32 = 0;
    let mut twice = double;
    for &b in text.iter().rev() {
        if !text::is_digit(b) {
            return Err(Reason::BadByte);
        }
        total += weigh(twice, (b - b'0') as u32);
        twice = !twice;
    }
    Ok(total)
}

// Whether a text of 2 to 40 digits passes.
pub fn test(text: &[u8]) -> Result<(), Reason>
    ensures { said result ≡ luhn_rule text.now }
{
    let s = sum(text, 2, 40, false)?;
    if s % 10 == 0 {
        Ok(())
    } else {
        Err(Reason::WrongCheck)
    }
}

// The byte of the digit that, put at the end of a body of 1 to 39 digits, makes it pass.
pub fn make(body: &[u8]) -> Result<u8, Reason>
    ensures { said result ≡ make_rule body.now }
{
    let s = sum(body, 1, 39, true)?;
    Ok((48 + (10 - s % 10) % 10) as u8)
}
