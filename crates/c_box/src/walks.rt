// Walks: journal_walk, whose every step checks the journal; walk_start, which checks it once, and walk_step, which does not.
ghost use Rattle.c_box.specs.Calls.{JournalWalks, WalkStarts, WalkSteps};

// The first held record above a serial; serial 0 and place 0 say done.
pub fn journal_walk(journal: &[u8], above: u32, serial: &mut u32, at: &mut u32) -> u32
    ensures { JournalWalks journal.now above (serial.old, at.old) result (serial.new, at.new) }
{
    match slots::newest_of(journal) {
        None => 16,
        Some(b) => {
            let s = walker::inner::first_above(journal, b, above);
            *serial = s;
            *at = walker::inner::place_or_zero(journal, s);
            0
        }
    }
}

// The serial to begin with; 0 says that nothing is held.
pub fn walk_start(journal: &[u8], serial: &mut u32) -> u32
    ensures { WalkStarts journal.now serial.old result serial.new }
{
    match held::tell(journal) {
        Ok(told) => {
            *serial = told.oldest;
            0
        }
        Err(reason) => reasons::number(reason),
    }
}

// The held record of a serial, and the serial to go on with; 0 says done.
pub fn walk_step(journal: &[u8], serial: u32, at: &mut u32, next: &mut u32) -> u32
    ensures { WalkSteps journal.now serial (at.old, next.old) result (at.new, next.new) }
{
    match walker::find_held(journal, serial) {
        Ok(a) => {
            *at = a as u32;
            *next = walker::next_of(journal, serial);
            0
        }
        Err(why) => reasons::number(why),
    }
}
