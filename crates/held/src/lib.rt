// What a journal holds: tell, and show of one record. Each call scans the journal once for its view and hands that to an inner call; no byte changes.
#![tactic(auto)]

use reasons::Reason;

pub mod inner;

ghost use Rattle.held.specs.Rules.{TellsOf, Finds, ShowsOf, NumberOfShow};

// What a journal holds: count and sum of the held records, the oldest held serial and the newest serial, 0 for none.
#[derive(Clone, Copy, Debug, PartialEq, Eq)]
pub struct Told {
    pub count: u32,
    pub sum: u64,
    pub oldest: u32,
    pub newest: u32,
}

// What records come to: their count, the sum of their amounts, the serial of the first, 0 for none.
#[derive(Clone, Copy)]
pub struct Tallied {
    pub count: u32,
    pub sum: u64,
    pub first: u32,
}

// What the journal holds.
#[tactic(auto, using(crate::proofs::Rule::tell_bad))]
pub fn tell(j: &[u8]) -> Result<Told, Reason>
    ensures { TellsOf j.now result }
{
    let Some(b) = slots::newest_of(j) else {
        return Err(Reason::BadJournal);
    };
    Ok(inner::tell_at(j, b))
}

// Where the held record of serial s begins.
#[tactic(auto, using(crate::proofs::Rule::show_bad))]
pub fn find(j: &[u8], s: u32) -> Result<usize, Reason>
    ensures { Finds j.now s result }
{
    match slots::newest_of(j) {
        None => Err(Reason::BadJournal),
        Some(b) => inner::find_at(j, b, s),
    }
}

// The held record of serial s, a part of the journal, or an empty part.
pub fn show(j: &[u8], s: u32) -> &[u8]
    ensures { ShowsOf j.entry s result }
{
    match find(j, s) {
        Ok(at) => &j[at..at + 32],
        Err(_) => &j[..0],
    }
}

// The number of the reason for which `show` gives an empty part, 0 where it gives a record.
pub fn show_number(j: &[u8], s: u32) -> u32
    ensures { NumberOfShow j.now s result }
{
    match find(j, s) {
        Ok(_) => 0,
        Err(why) => reasons::number(why),
    }
}
