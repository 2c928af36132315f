// The calls that change a journal: book and release. Each scans the journal once for its view and hands that to an inner call.
#![tactic(auto)]

use reasons::Reason;

pub mod inner;

ghost use Rattle.journal.specs.Rules.{Books, Releases};

// The count and the sum of what was released.
#[derive(Clone, Copy, Debug, PartialEq, Eq)]
pub struct Released {
    pub count: u32,
    pub sum: u64,
}

// Books a payment as the journal's next serial, which it answers.
pub fn book(j: &mut [u8], pan: &[u8], label: u16, amount: u32, clock: u32) -> Result<u32, Reason>
    ensures { Books j.old pan.now label amount clock result j.new }
{
    match slots::newest_of(j) {
        None => Err(Reason::BadJournal),
        Some(b) => inner::book_at(j, b, pan, label, amount, clock),
    }
}

// Releases every held record up to serial s.
pub fn release(j: &mut [u8], s: u32) -> Result<Released, Reason>
    ensures { Releases j.old s result j.new }
{
    match slots::newest_of(j) {
        None => Err(Reason::BadJournal),
        Some(b) => inner::release_at(j, b, s),
    }
}
