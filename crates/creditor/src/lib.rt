// Creditor references (ISO 11649): testing a text, and making the check pair for a body.
#![tactic(auto)]

ghost use Rattle.std.specs.Prelude.{◌≡◌, ◌≤◌, length};
ghost use Rattle.reasons.specs.Reasons.{said};
ghost use Rattle.creditor.specs.Creditor.{is_plain, all_plain, laid_out, creditor_rule, make_rule};

use reasons::Reason;

#[tactic(auto, unfolding(crate::specs::Creditor::is_plain))]
fn is_plain(b: u8) -> bool
    ensures { result ≡ is_plain b }
{
    text::is_digit(b) || text::is_capital(b)
}

// Looks at every byte, with no way out in between: the compiler then takes sixteen at a time.
#[tactic(auto, using(text::proofs::Every::turn_on))]
fn all_plain(s: &[u8]) -> bool
    ensures { result ≡ all_plain s.now }
{
    let mut plain = true;
    for &b in s {
        plain = plain & is_plain(b);
    }
    plain
}

// `RF`, and digits at 3 and 4.
#[tactic(auto, unfolding(crate::specs::Creditor::laid_out))]
fn laid_out(s: &[u8]) -> bool
    requires { 4 ≤ length s.now }
    ensures { result ≡ laid_out s.now }
{
    s[0] == b'R' && s[1] == b'F' && mod97::inner::pair_digits(s)
}

// Whether a text is a creditor reference whose pair passes.
#[tactic(auto, unfolding(crate::specs::Creditor::creditor_rule))]
pub fn test(text: &[u8]) -> Result<(), Reason>
    ensures { said result ≡ creditor_rule text.now }
{
    let n = text.len();
    if n < 5 || 25 < n {
        return Err(Reason::BadCount);
    }
    if !all_plain(text) {
        return Err(Reason::BadByte);
    }
    if !laid_out(text) {
        return Err(Reason::WrongLayout);
    }
    if !mod97::inner::checks_out(text) {
        return Err(Reason::WrongCheck);
    }
    Ok(())
}

// The check pair of a body of 1 to 21 digits or capitals.
#[tactic(auto, unfolding(crate::specs::Creditor::make_rule))]
pub fn make(body: &[u8]) -> Result<u32, Reason>
    ensures { said result ≡ make_rule body.now }
{
    let n = body.len();
    if n < 1 || 21 < n {
        return Err(Reason::BadCount);
    }
    if !all_plain(body) {
        return Err(Reason::BadByte);
    }
    Ok(mod97::inner::pair_for(b"RF", body))
}
