// The host's ledger: it takes the box's records one serial after another and adds up their amounts.
#![tactic(auto)]

ghost use Rattle.std.specs.Prelude.{◌≡◌};
ghost use Rattle.slots.specs.Journal.{Tells};
ghost use Rattle.ledger.specs.Ledger.{HeldRecord, sound, opened, is_next, Takes};

use reasons::Reason;

// The last serial taken, 0 for none, so that the next one is wanted; and the total. After a message that isn't refused the host answers `taken`.
#[derive(Clone, Copy)]
pub struct Ledger {
    pub taken: u32,
    pub total: u64,
}

// A fresh ledger.
pub fn fresh() -> Ledger
    ensures { result ≡ opened }
{
    Ledger { taken: 0, total: 0 }
}

// Whether a message is a held record by the journal's rules.
fn is_held_record(message: &[u8]) -> bool
    ensures { Tells result (HeldRecord message.now) }
{
    if message.len() != 32 {
        return false;
    }
    let serial = text::u32_at(message, 0);
    if serial == 0 {
        return false;
    }
    if !slots::good(message, 0, serial) {
        return false;
    }
    slots::is_held(message[15])
}

impl Ledger {
    // Whether messages can have led to it.
    #[tactic(auto, unfolding(crate::specs::Ledger::sound))]
    fn is_sound(self) -> bool
        ensures { result ≡ sound self.taken self.total }
    {
        let taken = u64::from(self.taken);
        taken <= self.total && self.total <= taken * 4294967295
    }

    // Whether a serial is the next one; after the last there is none.
    #[tactic(auto, unfolding(crate::specs::Ledger::is_next))]
    fn wants(self, serial: u32) -> bool
        ensures { result ≡ is_next self.taken serial }
    {
        self.taken < 4294967295 && serial == self.taken + 1
    }
}

// Takes a message: the record of the wanted serial is added, any other held record changes nothing.
pub fn take(ledger: Ledger, message: &[u8]) -> Result<Ledger, Reason>
    ensures { Takes ledger message.now result }
{
    if !is_held_record(message) {
        return Err(Reason::WrongLayout);
    }
    if !ledger.is_sound() {
        return Err(Reason::WrongLayout);
    }
    let serial = text::u32_at(message, 0);
    if !ledger.wants(serial) {
        return Ok(ledger);
    }
    let amount = text::u32_at(message, 8);
    Ok(Ledger {
        taken: serial,
        total: ledger.total + u64::from(amount),
    })
}
