// The characters between track 1's sentinels (ISO/IEC 7813), divided into PAN, name, expiry, service code and discretionary data.
#![tactic(auto)]

ghost use Rattle.std.specs.Prelude.{◌≡◌, ◌≤◌, length};
ghost use Rattle.reasons.specs.Reasons.{number_in, said};
ghost use Rattle.layout.specs.Layout.{CutOf};
ghost use Rattle.layout1.specs.Layout1.{fields_rule, name_rule, layout1_rule, pan_cut, name_cut, expiry_cut, service_cut, rest_cut};

use layout::Track;
use layout::inner::{byte_at, cut, field_of, lead_of, named_of, with_expiry};
use reasons::Reason;

// Where the parts stand: the lengths of PAN and name, the places of expiry and service code where there are such, and the start of the
// discretionary data.
#[derive(Clone, Copy, Debug, PartialEq, Eq)]
pub struct Fields {
    pub pan: usize,
    pub name: usize,
    pub expiry: Option<usize>,
    pub service: Option<usize>,
    pub rest: usize,
}

// The division behind a PAN and a name of these lengths, each with its `^`.
fn with_name(chars: &[u8], pan: usize, name: usize) -> Result<Fields, Reason>
    requires { (pan ≤ 19) × (name ≤ 26) }
    ensures { said result ≡ fields_rule chars.now pan name }
{
    let d = with_expiry(Track::One, chars, pan, pan + name + 3)?;
    Ok(Fields {
        pan: d.pan,
        name,
        expiry: d.expiry,
        service: d.service,
        rest: d.rest,
    })
}

// The division behind a PAN of this length and its `^`.
fn with_pan(chars: &[u8], pan: usize) -> Result<Fields, Reason>
    requires { pan ≤ 19 }
    ensures { said result ≡ name_rule chars.now pan }
{
    let name = named_of(text::piece(chars, pan + 2, chars.len()));
    if name < 2 {
        return Err(Reason::WrongLayout);
    }
    if 26 < name {
        return Err(Reason::WrongLayout);
    }
    if byte_at(chars, pan + name + 2) != b'^' {
        return Err(Reason::WrongLayout);
    }
    with_name(chars, pan, name)
}

// Where the parts of the characters stand.
pub fn divide(chars: &[u8]) -> Result<Fields, Reason>
    ensures { said result ≡ layout1_rule chars.now }
{
    if byte_at(chars, 0) != b'B' {
        return Err(Reason::WrongLayout);
    }
    let pan = lead_of(text::piece(chars, 1, chars.len()));
    if pan < 13 {
        return Err(Reason::WrongLayout);
    }
    if 19 < pan {
        return Err(Reason::WrongLayout);
    }
    if byte_at(chars, pan + 1) != b'^' {
        return Err(Reason::WrongLayout);
    }
    with_pan(chars, pan)
}

// The PAN; a refusal gives an empty part.
pub fn pan_of(chars: &[u8]) -> &[u8]
    ensures { CutOf chars.entry (pan_cut (layout1_rule chars.now)) result }
{
    match divide(chars) {
        Ok(d) => cut(chars, 1, d.pan),
        Err(_) => cut(chars, 0, 0),
    }
}

// The name; a refusal gives an empty part.
pub fn name_of(chars: &[u8]) -> &[u8]
    ensures { CutOf chars.entry (name_cut (layout1_rule chars.now)) result }
{
    match divide(chars) {
        Ok(d) => cut(chars, d.pan + 2, d.name),
        Err(_) => cut(chars, 0, 0),
    }
}

// The expiry; a refusal, and an absent expiry, give an empty part.
pub fn expiry_of(chars: &[u8]) -> &[u8]
    ensures { CutOf chars.entry (expiry_cut (layout1_rule chars.now)) result }
{
    match divide(chars) {
        Ok(d) => field_of(chars, d.expiry, 4),
        Err(_) => cut(chars, 0, 0),
    }
}

// The service code; a refusal, and an absent service code, give an empty part.
pub fn service_of(chars: &[u8]) -> &[u8]
    ensures { CutOf chars.entry (service_cut (layout1_rule chars.now)) result }
{
    match divide(chars) {
        Ok(d) => field_of(chars, d.service, 3),
        Err(_) => cut(chars, 0, 0),
    }
}

// The discretionary data; a refusal gives an empty part.
pub fn discretionary_of(chars: &[u8]) -> &[u8]
    ensures { CutOf chars.entry (rest_cut (length chars.now) (layout1_rule chars.now)) result }
{
    match divide(chars) {
        Ok(d) => cut(chars, d.rest, chars.len() - d.rest),
        Err(_) => cut(chars, 0, 0),
    }
}

// The number of the parts' refusal, 0 where there is none.
pub fn divide_number(chars: &[u8]) -> u32
    ensures { result ≡ number_in (layout1_rule chars.now) }
{
    match divide(chars) {
        Ok(_) => 0,
        Err(why) => reasons::number(why),
    }
}
