// The calls on a journal whose view is already made: for the calls of this crate and for the swipe, which scans the journal once.
ghost use Rattle.std.specs.Prelude.{◌≡◌, ◌+◌, ◌*◌, ◌-◌, ◌≤◌, ◌<◌, length, Some};
ghost use Rattle.reasons.specs.Reasons.{said};
ghost use Rattle.text.specs.Numbers.{put};
ghost use Rattle.slots.specs.Record.{record32};
ghost use Rattle.slots.specs.Journal.{slots_of, place, Formed};
ghost use Rattle.journal.specs.Rules.{pan_rule, full, book_rule, book_bytes, release_rule, release_bytes, freed_at, freed_after};

use crate::Released;
use reasons::Reason;

// ---- book

// Whether a text is a card number that passes.
fn pan_tested(pan: &[u8]) -> Result<(), Reason>
    ensures { said result ≡ pan_rule pan.now }
{
    let n = pan.len();
    if n < 13 {
        return Err(Reason::BadCount);
    }
    if 19 < n {
        return Err(Reason::BadCount);
    }
    luhn::test(pan)
}

// Whether all slots of a journal with newest serial b are held: they are exactly where the next serial's own slot is.
pub fn is_full(j: &[u8], b: u32) -> bool
    requires { Formed j.now (slots_of j.now) b }
    ensures { result ≡ full j.now }
{
    let n = j.len() / 32;
    let at = 32 * (b as usize % n);
    slots::is_held(j[at + 15])
}

// Writes the next serial's record into its slot, and answers the serial. The caller has tested PAN, amount, serials and room.
pub fn write_at(j: &mut [u8], b: u32, pan: &[u8], label: u16, amount: u32, clock: u32) -> u32
    requires formed { Formed j.old (slots_of j.old) b }
    requires b_bound { (b < 4294967295) × (13 ≤ length pan.now) × (length pan.now ≤ 19) }
    ensures { (result ≡ b + 1) × (j.new ≡ put j.old (place (slots_of j.old) (b + 1)) (record32 (b + 1) clock amount label pan.now)) }
{
    let n = j.len() / 32;
    let r = slots::record_of(b + 1, clock, amount, label, pan);
    slots::write_record(j, 32 * (b as usize % n), &r);
    b + 1
}

// Books in a journal with newest serial b.
pub fn book_at(
    j: &mut [u8],
    b: u32,
    pan: &[u8],
    label: u16,
    amount: u32,
    clock: u32,
) -> Result<u32, Reason>
    requires { Formed j.old (slots_of j.old) b }
    ensures { (said result ≡ book_rule (Some b) j.old pan.now label amount) × (j.new ≡ book_bytes (Some b) j.old pan.now label amount clock) }
{
    pan_tested(pan)?;
    if amount == 0 {
        return Err(Reason::ZeroAmount);
    }
    if b == 4294967295 {
        return Err(Reason::SerialsUsedUp);
    }
    if is_full(j, b) {
        return Err(Reason::JournalFull);
    }
    Ok(write_at(j, b, pan, label, amount, clock))
}

// ---- release

// Turns the state of the record at `at` into released, where it is held.
fn free_one(j: &mut [u8], at: usize)
    requires { at + 32 ≤ length j.old }
    ensures { (j.new ≡ freed_at j.old at) × (length j.new ≡ length j.old) }
{
    let state = j[at + 15];
    if slots::is_held(state) {
        j[at + 15] = slots::freed(state);
    }
}

// Releases the held records of the serials after low up to top, by rising serial: the order in which memory that outlives the power is to be written.
fn free(j: &mut [u8], n: usize, low: u32, top: u32)
    requires { (1 ≤ n) × (n ≤ 2048) × (length j.old ≡ 32 * n) × (low ≤ top) × (low < 4294967295) }
    ensures { j.new ≡ freed_after j.old n low (top - low) }
{
    let mut at = slots::place_of(n, low + 1);
    for _k in 0..top - low {
        free_one(j, at);
        at = slots::onward(n, at);
    }
}

// Releases in a journal with newest serial b.
pub fn release_at(j: &mut [u8], b: u32, s: u32) -> Result<Released, Reason>
    requires { Formed j.old (slots_of j.old) b }
    ensures { (said result ≡ release_rule (Some b) j.old s) × (j.new ≡ release_bytes (Some b) j.old s) }
{
    if !held::inner::is_after(0, b, s) {
        return Err(Reason::NoSerial);
    }
    let n = j.len() / 32;
    let low = slots::floor_of(n, b);
    let top = slots::higher(low, s);
    let t = held::inner::tally(j, n, low, top);
    free(j, n, low, top);
    Ok(Released {
        count: t.count,
        sum: t.sum,
    })
}
