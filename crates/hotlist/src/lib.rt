// The hot list: whether a card is blocked (request E8).
#![tactic(auto)]

pub mod inner;

ghost use Rattle.std.specs.Prelude.{◌≡◌};
ghost use Rattle.reasons.specs.Reasons.{said};
ghost use Rattle.hotlist.specs.Hotlist.{hot_rule};

use reasons::Reason;

// Whether a PAN is in the list of blocked cards, which have so many digits.
#[tactic(auto, unfolding(crate::specs::Hotlist::hot_rule))]
pub fn find(list: &[u64], digits: u32, pan: &[u8]) -> Result<bool, Reason>
    ensures { said result ≡ hot_rule list.now digits pan.now }
{
    if !inner::list_ok(list, digits) {
        return Err(Reason::BadHotList);
    }
    let n = pan.len();
    if n < 13 {
        return Err(Reason::BadCount);
    }
    if 19 < n {
        return Err(Reason::BadCount);
    }
    if !text::all_digits(pan) {
        return Err(Reason::BadByte);
    }
    Ok(inner::is_listed(list, digits, pan))
}
