// What each slot of any bytes of a journal's length says, whatever stands in the others, and what the slots come to.
#![tactic(auto)]

use inner::Slots;
use reasons::Reason;

pub mod inner;

ghost use Rattle.std.specs.Prelude.{◌≡◌};
ghost use Rattle.reasons.specs.Reasons.{said};
ghost use Rattle.remains.specs.Slot.{look_rule};
ghost use Rattle.remains.specs.Count.{count_rule};

// The numbers that stand in a slot, damaged or not.
#[derive(Clone, Copy)]
pub struct Fields {
    pub serial: u32,
    pub clock: u32,
    pub amount: u32,
    pub label: u16,
    pub length: u8,
    pub state: u8,
}

// Which tests of a record a slot passes: a serial other than 0, that belongs in this slot, a state that is one, an amount above 0, the PAN's
// length, digits as digits, zeros as zeros.
#[derive(Clone, Copy)]
pub struct Tests {
    pub serial: bool,
    pub slot: bool,
    pub state: bool,
    pub amount: bool,
    pub length: bool,
    pub digits: bool,
    pub zeros: bool,
}

// What a slot says, whatever stands in the others.
#[derive(Clone, Copy)]
pub enum Slot {
    Free,
    Held(Fields),
    Released(Fields),
    Damaged(Fields, Tests),
}

// How many slots are held, released and damaged, and the sum of the held amounts.
#[derive(Clone, Copy, Default)]
pub struct Counts {
    pub held: u32,
    pub sum: u64,
    pub released: u32,
    pub damaged: u32,
}

// What slot k says.
pub fn look(j: &[u8], k: usize) -> Result<Slot, Reason>
    ensures { said result ≡ look_rule j.now k }
{
    let slots = Slots::of(j)?;
    if slots.count() <= k {
        return Err(Reason::NoSerial);
    }
    Ok(slots.at(k))
}

// What the slots come to.
pub fn count(j: &[u8]) -> Result<Counts, Reason>
    ensures { said result ≡ count_rule j.now }
{
    let slots = Slots::of(j)?;
    Ok(slots.counts())
}
