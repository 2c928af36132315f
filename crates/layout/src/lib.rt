// The characters between track 2's sentinels (ISO/IEC 7813), divided into PAN, expiry, service code and discretionary data.
#![tactic(auto)]

pub mod inner;

ghost use Rattle.std.specs.Prelude.{◌≡◌, length};
ghost use Rattle.reasons.specs.Reasons.{number_in, said};
ghost use Rattle.layout.specs.Layout.{layout_rule, CutOf, pan_cut, expiry_cut, service_cut, rest_cut};

use inner::{byte_at, cut, field_of, lead_of, with_expiry};
use reasons::Reason;

// The track that characters were read from.
#[derive(Clone, Copy, Debug, PartialEq, Eq)]
pub enum Track {
    Two,
    One,
}

// Where the parts stand: the PAN's length, the places of expiry and service code where there are such, and the start of the discretionary data.
#[derive(Clone, Copy, Debug, PartialEq, Eq)]
pub struct Fields {
    pub pan: usize,
    pub expiry: Option<usize>,
    pub service: Option<usize>,
    pub rest: usize,
}

// Where the parts of the characters stand.
pub fn divide(chars: &[u8]) -> Result<Fields, Reason>
    ensures { said result ≡ layout_rule chars.now }
{
    let pan = lead_of(chars);
    if pan < 13 {
        return Err(Reason::WrongLayout);
    }
    if 19 < pan {
        return Err(Reason::WrongLayout);
    }
    if byte_at(chars, pan) != b'=' {
        return Err(Reason::WrongLayout);
    }
    with_expiry(Track::Two, chars, pan, pan + 1)
}

// The PAN; a refusal gives an empty part.
pub fn pan_of(chars: &[u8]) -> &[u8]
    ensures { CutOf chars.entry (pan_cut (layout_rule chars.now)) result }
{
    match divide(chars) {
        Ok(d) => cut(chars, 0, d.pan),
        Err(_) => cut(chars, 0, 0),
    }
}

// The expiry; a refusal, and an absent expiry, give an empty part.
pub fn expiry_of(chars: &[u8]) -> &[u8]
    ensures { CutOf chars.entry (expiry_cut (layout_rule chars.now)) result }
{
    match divide(chars) {
        Ok(d) => field_of(chars, d.expiry, 4),
        Err(_) => cut(chars, 0, 0),
    }
}

// The service code; a refusal, and an absent service code, give an empty part.
pub fn service_of(chars: &[u8]) -> &[u8]
    ensures { CutOf chars.entry (service_cut (layout_rule chars.now)) result }
{
    match divide(chars) {
        Ok(d) => field_of(chars, d.service, 3),
        Err(_) => cut(chars, 0, 0),
    }
}

// The discretionary data; a refusal gives an empty part.
pub fn discretionary_of(chars: &[u8]) -> &[u8]
    ensures { CutOf chars.entry (rest_cut (length chars.now) (layout_rule chars.now)) result }
{
    match divide(chars) {
        Ok(d) => cut(chars, d.rest, chars.len() - d.rest),
        Err(_) => cut(chars, 0, 0),
    }
}

// The number of the parts' refusal, 0 where there is none.
pub fn divide_number(chars: &[u8]) -> u32
    ensures { result ≡ number_in (layout_rule chars.now) }
{
    match divide(chars) {
        Ok(_) => 0,
        Err(why) => reasons::number(why),
    }
}
