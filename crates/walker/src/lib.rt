// A walker holds the lent journal and its place, and gives held records, as parts of it, by rising serial, each once, then says done.
#![tactic(auto)]

pub mod inner;

ghost use Rattle.std.specs.Prelude.{◌≡◌};
ghost use Rattle.reasons.specs.Reasons.{said};
ghost use Rattle.held.specs.Rules.{Shows};
ghost use Rattle.std.specs.Iterator.{YieldsFirstRef, item_count};
ghost use Rattle.walker.specs.Walk.{held_rule, next_of, StartsAt, StartNumber, to_come};

use reasons::Reason;

// `next` is the serial of the record that comes next, 0 for done.
#[derive(Clone, Copy)]
pub struct Walker<'a> {
    pub journal: &'a [u8],
    pub next: u32,
}

// ---- the covered functions, on the journal and a serial

// Where the record of serial s begins, if it stands held in its slot.
pub fn find_held(j: &[u8], s: u32) -> Result<usize, Reason>
    ensures { said result ≡ held_rule j.now s }
{
    let n = j.len() / 32;
    if n < 1 {
        return Err(Reason::NoSerial);
    }
    if 2048 < n {
        return Err(Reason::NoSerial);
    }
    if s == 0 {
        return Err(Reason::NoSerial);
    }
    let at = slots::place_of(n, s);
    if text::u32_at(j, at) != s {
        return Err(Reason::NoSerial);
    }
    if slots::is_held(j[at + 15]) {
        return Ok(at);
    }
    Err(Reason::NoSerial)
}

// The held record of serial s, a part of the journal, or the empty part at its start.
pub fn held_at(j: &[u8], s: u32) -> &[u8]
    ensures { Shows j.entry (held_rule j.now s) result }
{
    match find_held(j, s) {
        Ok(at) => &j[at..at + 32],
        Err(_) => &j[..0],
    }
}

// The serial after s, where its record is held, and else 0.
pub fn next_of(j: &[u8], s: u32) -> u32
    ensures { result ≡ next_of j.now s }
{
    if s == 0 {
        return 0;
    }
    if s == 4294967295 {
        return 0;
    }
    match find_held(j, s + 1) {
        Ok(_) => s + 1,
        Err(_) => 0,
    }
}

// The serial of the oldest held record, 0 where there is none or the journal is not well formed.
pub fn oldest(j: &[u8]) -> u32
    ensures { StartsAt j.now result }
{
    held::tell(j).map_or(0, |told| told.oldest)
}

// The number of the reason for which `start` gives a walker that is done, 0 where the journal is well formed.
pub fn start_number(j: &[u8]) -> u32
    ensures { StartNumber j.now result }
{
    match held::tell(j) {
        Ok(_) => 0,
        Err(why) => reasons::number(why),
    }
}

// ---- the walker

// A walker at the oldest held record.
pub fn start<'a>(journal: &'a [u8]) -> Walker<'a>
    ensures { (result.journal ≡ journal.entry) × StartsAt journal.now result.next }
{
    Walker {
        journal,
        next: oldest(journal),
    }
}

// The record that comes next, a part of the journal; the empty part for done.
pub fn record<'a>(w: Walker<'a>) -> &'a [u8]
    ensures { Shows w.entry.journal (held_rule w.entry.journal.now w.entry.next) result }
{
    held_at(w.journal, w.next)
}

// The walker one record on.
pub fn moved<'a>(w: Walker<'a>) -> Walker<'a>
    ensures { (result.journal ≡ w.entry.journal) × (result.next ≡ next_of w.entry.journal.now w.entry.next) }
{
    let n = next_of(w.journal, w.next);
    Walker {
        journal: w.journal,
        next: n,
    }
}

// The held records from the walker's place on, up to done.
impl<'a> Iterator for Walker<'a> {
    type Item = &'a [u8];

    ghost next_gives = { YieldsFirstRef to_come };

    ghost remaining = { item_count to_come };

    fn next(&mut self) -> Option<&'a [u8]> {
        let given = held_at(self.journal, self.next);
        if given.is_empty() {
            return None;
        }
        self.next = next_of(self.journal, self.next);
        Some(given)
    }
}
