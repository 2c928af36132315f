// One record of a script of calls played, and the totals of calls. For the crates above: all of it is inner.
#![tactic(auto)]

ghost use Rattle.std.specs.Prelude.{◌≡◌, List, ℕ};
ghost use Rattle.payer.specs.Payer.{terms_of};
ghost use Rattle.history.specs.History.{book, release};
ghost use Rattle.plays.specs.Script.{pan_at, label_at, amount_at, clock_at, serial_at, date_at, swipe_at, call_at, Cut};
ghost use Rattle.plays.specs.Script.{Nothing, Paid, Freed, PlaysOne, Fits, Adds};

use dates::Date;
use journal::Released;
use layout::Track;
use payer::Terms;

// ---- a script

// Why no record of a script is played: it is no whole number of records, or it has too many for the totals.
#[derive(Clone, Copy, Debug, PartialEq, Eq)]
pub enum Unplayed {
    NotWhole,
    TooLong,
}

// The records of a script.
pub fn records_of(script: &[u8]) -> Result<&[[u8; 128]], Unplayed>
    ensures { Cut script.now result }
{
    let (records, rest) = script.as_chunks::<128>();
    if !rest.is_empty() {
        return Err(Unplayed::NotWhole);
    }
    if 1048576 < records.len() {
        return Err(Unplayed::TooLong);
    }
    Ok(records)
}

// ---- totals

// What calls came to: the payments booked and their amounts, those released and their amounts as the releases answered, the calls refused, and
// the records that made no call.
#[derive(Clone, Copy, Default)]
pub struct Totals {
    pub booked: u64,
    pub takings: u64,
    pub released: u64,
    pub remitted: u64,
    pub refused: u64,
    pub skipped: u64,
}

pub fn add(t: Totals, u: Totals) -> Totals
    requires { Fits t u }
    ensures { Adds t u result }
{
    Totals {
        booked: t.booked + u.booked,
        takings: t.takings + u.takings,
        released: t.released + u.released,
        remitted: t.remitted + u.remitted,
        refused: t.refused + u.refused,
        skipped: t.skipped + u.skipped,
    }
}

// Of a record that makes no call.
pub fn one_skipped() -> Totals
    ensures { Nothing 0 1 result }
{
    Totals {
        skipped: 1,
        ..Totals::default()
    }
}

// Of a call that is refused.
fn one_refused() -> Totals
    ensures { Nothing 1 0 result }
{
    Totals {
        refused: 1,
        ..Totals::default()
    }
}

// Of a payment that is booked.
fn one_booked(amount: u32) -> Totals
    ensures { Paid amount result }
{
    Totals {
        booked: 1,
        takings: u64::from(amount),
        ..Totals::default()
    }
}

// Of a release.
fn one_released(freed: Released) -> Totals
    ensures { Freed freed result }
{
    Totals {
        released: u64::from(freed.count),
        remitted: freed.sum,
        ..Totals::default()
    }
}

// ---- one record

// What the first byte of a record asks for; any other makes no call.
const BOOK: u8 = 1;

const RELEASE: u8 = 2;

const SWIPE_TRACK_2: u8 = 3;

const SWIPE_TRACK_1: u8 = 4;

fn play_book(r: &[u8; 128], journal: &mut [u8]) -> Totals
    ensures { (t : List ℕ) → PlaysOne (book (pan_at r.now 0) (label_at r.now 0) (amount_at r.now 0))
        (clock_at r.now 0) t journal.old result t journal.new }
{
    let n = usize::from(r[1]).min(108);
    let label = text::u16_at(r, 2);
    let amount = text::u32_at(r, 4);
    let clock = text::u32_at(r, 8);
    match journal::book(journal, &r[20..20 + n], label, amount, clock) {
        Ok(_) => one_booked(amount),
        Err(_why) => one_refused(),
    }
}

pub fn play_release(r: &[u8; 128], journal: &mut [u8]) -> Totals
    ensures { (t : List ℕ) → PlaysOne (release (serial_at r.now 0)) (clock_at r.now 0)
        t journal.old result t journal.new }
{
    let serial = text::u32_at(r, 12);
    match journal::release(journal, serial) {
        Ok(freed) => one_released(freed),
        Err(_) => one_refused(),
    }
}

// The host's date in a record.
fn date_of(r: &[u8; 128]) -> Date
    ensures { result ≡ date_at r.now 0 }
{
    let year = u32::from(text::u16_at(r, 12));
    let month = u32::from(r[14]);
    let day = u32::from(r[15]);
    Date { year, month, day }
}

fn play_swipe(
    track: Track,
    r: &[u8; 128],
    terms: Terms,
    scratch: &mut [u8],
    journal: &mut [u8],
) -> Totals
    ensures { PlaysOne (swipe_at track r.now (terms_of terms.entry) scratch.old 0) (clock_at r.now 0)
        scratch.old journal.old result scratch.new journal.new }
{
    let amount = text::u32_at(r, 4);
    let clock = text::u32_at(r, 8);
    let bits = u64::from(text::u32_at(r, 16));
    let date = date_of(r);
    let stream = &r[20..128];
    match swipe::swipe(
        track, stream, bits, terms, amount, date, clock, scratch, journal,
    ) {
        Ok(_) => one_booked(amount),
        Err(_) => one_refused(),
    }
}

// Makes the call in a record.
pub fn play(r: &[u8; 128], terms: Terms, scratch: &mut [u8], journal: &mut [u8]) -> Totals
    ensures { PlaysOne (call_at r.now (terms_of terms.entry) scratch.old 0) (clock_at r.now 0)
        scratch.old journal.old result scratch.new journal.new }
{
    match r[0] {
        BOOK => play_book(r, journal),
        RELEASE => play_release(r, journal),
        SWIPE_TRACK_2 => play_swipe(Track::Two, r, terms, scratch, journal),
        SWIPE_TRACK_1 => play_swipe(Track::One, r, terms, scratch, journal),
        _ => one_skipped(),
    }
}
