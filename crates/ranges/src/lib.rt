// The look-up of a card number in the site's range table, then in the acquirer's.
#![tactic(auto)]

pub mod inner;

ghost use Rattle.std.specs.Prelude.{◌≡◌};
ghost use Rattle.reasons.specs.Reasons.{number_in, said};
ghost use Rattle.ranges.specs.Ranges.{range_rule, LooksUp};

use reasons::Reason;

// The table that holds a record, and where in it the record begins.
#[derive(Clone, Copy, Debug, PartialEq, Eq)]
pub enum Place {
    Site(usize),
    Acquirer(usize),
}

// Where the record of a PAN stands.
#[tactic(auto, unfolding(crate::specs::Ranges::range_rule))]
pub fn find(site: &[u8], acquirer: &[u8], pan: &[u8]) -> Result<Place, Reason>
    ensures { said result ≡ range_rule site.now acquirer.now pan.now }
{
    if !inner::tables_ok(site, acquirer) {
        return Err(Reason::BadTable);
    }
    let n = pan.len();
    if n < 13 {
        return Err(Reason::BadCount);
    }
    if 19 < n {
        return Err(Reason::BadCount);
    }
    if !text::all_digits(pan) {
        return Err(Reason::BadByte);
    }
    inner::find_tested(site, acquirer, pan)
}

// The record of a PAN: its own 16 bytes, a part of the table that holds it. Empty on a refusal.
pub fn look_up<'a>(site: &'a [u8], acquirer: &'a [u8], pan: &[u8]) -> &'a [u8]
    ensures { LooksUp site.entry acquirer.entry (range_rule site.now acquirer.now pan.now) result }
{
    match find(site, acquirer, pan) {
        Ok(Place::Site(at)) => &site[at..at + 16],
        Ok(Place::Acquirer(at)) => &acquirer[at..at + 16],
        Err(_) => &site[..0],
    }
}

// The number of the reason for which `look_up` gives an empty part, 0 where it gives a record.
pub fn look_up_number(site: &[u8], acquirer: &[u8], pan: &[u8]) -> u32
    ensures { result ≡ number_in (range_rule site.now acquirer.now pan.now) }
{
    match find(site, acquirer, pan) {
        Ok(_) => 0,
        Err(r) => reasons::number(r),
    }
}
