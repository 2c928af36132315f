// IBAN (ISO 13616): testing a text, and making the check pair for a country and a body.
#![tactic(auto)]

ghost use Rattle.std.specs.Prelude.{◌≡◌};
ghost use Rattle.reasons.specs.Reasons.{said};
ghost use Rattle.iban.specs.Iban.{all_allowed, iban_rule, make_rule};

use countries::Kind;
use reasons::Reason;

// Whether every byte may stand in an IBAN.
fn all_allowed(s: &[u8]) -> bool
    ensures { result ≡ all_allowed s.now }
{
    countries::all_fit(Kind::Either, s)
}

// Whether a text is an IBAN whose pair passes.
#[tactic(auto, using(crate::proofs::Rule::row_laws), unfolding(crate::specs::Iban::iban_rule, crate::specs::Iban::laid_out))]
pub fn test(text: &[u8]) -> Result<(), Reason>
    ensures { said result ≡ iban_rule text.now }
{
    let n = text.len();
    if n < 5 || 34 < n {
        return Err(Reason::BadCount);
    }
    if !all_allowed(text) {
        return Err(Reason::BadByte);
    }
    let Some(row) = countries::find(text[0], text[1]) else {
        return Err(Reason::UnknownCountry);
    };
    if !mod97::inner::pair_digits(text) {
        return Err(Reason::WrongLayout);
    }
    if !countries::fits_row(row, &text[4..]) {
        return Err(Reason::WrongLayout);
    }
    if !mod97::inner::checks_out(text) {
        return Err(Reason::WrongCheck);
    }
    Ok(())
}

// The check pair of a country and a body.
#[tactic(auto, using(crate::proofs::Rule::row_laws), unfolding(crate::specs::Iban::make_rule))]
pub fn make(country: &[u8], body: &[u8]) -> Result<u32, Reason>
    ensures { said result ≡ make_rule country.now body.now }
{
    if country.len() != 2 {
        return Err(Reason::BadCount);
    }
    let n = body.len();
    if n < 1 || 30 < n {
        return Err(Reason::BadCount);
    }
    if !all_allowed(country) || !all_allowed(body) {
        return Err(Reason::BadByte);
    }
    let Some(row) = countries::find(country[0], country[1]) else {
        return Err(Reason::UnknownCountry);
    };
    if !countries::fits_row(row, body) {
        return Err(Reason::WrongLayout);
    }
    Ok(mod97::inner::pair_for(country, body))
}
