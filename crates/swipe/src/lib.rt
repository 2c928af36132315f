// One swipe, from the stripe to the journal.
#![tactic(auto)]

ghost use Rattle.std.specs.Prelude.{◌≡◌, ◌≤◌, length, drop};
ghost use Rattle.reasons.specs.Reasons.{said};
ghost use Rattle.slots.specs.Views.{Seen};
ghost use Rattle.payer.specs.Payer.{room, terms_of, given};
ghost use Rattle.swipe.specs.Swipe.{box_rule, Charges, Swipes};

use dates::Date;
use layout::Track;
use payer::{Terms, card_of_stripe, room_of};
use reasons::Reason;

// The newest serial of a journal that a payment can be booked in: the journal, the tables, the hot list, the amount, the date, the serials, and a
// slot that is not held.
fn ready(terms: Terms, amount: u32, date: Date, journal: &[u8]) -> Result<u32, Reason>
    ensures { Seen journal.now (λ m. said result ≡ box_rule m (terms_of terms.entry) amount date journal.now) }
{
    let Some(b) = slots::newest_of(journal) else {
        return Err(Reason::BadJournal);
    };
    if !ranges::inner::tables_ok(terms.site, terms.acquirer) {
        return Err(Reason::BadTable);
    }
    if !hotlist::inner::list_ok(terms.hot, terms.digits) {
        return Err(Reason::BadHotList);
    }
    if amount == 0 {
        return Err(Reason::ZeroAmount);
    }
    if !dates::inner::is_real(date) {
        return Err(Reason::BadDate);
    }
    if b == 4294967295 {
        return Err(Reason::SerialsUsedUp);
    }
    if journal::inner::is_full(journal, b) {
        return Err(Reason::JournalFull);
    }
    Ok(b)
}

// What a booked swipe answers: the serial that the payment was booked with, and the days that the card has left, or no number where it has no expiry.
#[derive(Clone, Copy, Debug, PartialEq, Eq)]
pub struct Receipt {
    pub serial: u32,
    pub left: Option<u32>,
}

// A swipe between the scratch's test, which comes before, and its clearing, which comes after.
fn book_card(
    track: Track,
    stream: &[u8],
    bits: u64,
    terms: Terms,
    amount: u32,
    date: Date,
    clock: u32,
    scratch: &mut [u8],
    journal: &mut [u8],
) -> Result<Receipt, Reason>
    requires { room track ≤ length scratch.old }
    ensures { Seen journal.old (λ m. Charges m (given track stream.now bits (terms_of terms.entry) date) amount clock
        (length scratch.old) journal.old result journal.new) × (drop (room track) scratch.new ≡ drop (room track) scratch.old) }
{
    let b = ready(terms, amount, date, journal)?;
    let card = card_of_stripe(track, stream, bits, terms, date, scratch)?;
    let end = card.at + card.digits;
    let pan = &scratch[card.at..end];
    let serial = journal::inner::write_at(journal, b, pan, card.label, amount, clock);
    Ok(Receipt {
        serial,
        left: card.left,
    })
}

// A swipe of a card's track: it refuses, or it books one payment and answers its serial and what the card has left. The scratch holds the card's
// characters in between.
pub fn swipe(
    track: Track,
    stream: &[u8],
    bits: u64,
    terms: Terms,
    amount: u32,
    date: Date,
    clock: u32,
    scratch: &mut [u8],
    journal: &mut [u8],
) -> Result<Receipt, Reason>
    ensures { Swipes (given track stream.now bits (terms_of terms.entry) date) amount clock
        scratch.old journal.old result scratch.new journal.new }
{
    let n = room_of(track);
    if scratch.len() < n {
        return Err(Reason::ShortOutput);
    }
    let r = book_card(
        track, stream, bits, terms, amount, date, clock, scratch, journal,
    );
    scratch[..n].fill(0);
    r
}
