// Walks: gw_journal_walk, whose every step checks the journal; gw_walk_start, which checks it once, and gw_walk_step, which does not.
ghost use Rattle.c_box.specs.Calls.{JournalWalks, WalkStarts, WalkSteps};

#[unsafe(no_mangle)]
pub extern "C" fn gw_journal_walk(journal: &[u8], above: u32, serial: &mut u32, at: &mut u32) -> u32
    ensures { JournalWalks journal.now above (serial.old, at.old) result (serial.new, at.new) }
{
    c_box::journal_walk(journal, above, serial, at)
}

#[unsafe(no_mangle)]
pub extern "C" fn gw_walk_start(journal: &[u8], serial: &mut u32) -> u32
    ensures { WalkStarts journal.now serial.old result serial.new }
{
    c_box::walk_start(journal, serial)
}

#[unsafe(no_mangle)]
pub extern "C" fn gw_walk_step(journal: &[u8], serial: u32, at: &mut u32, next: &mut u32) -> u32
    ensures { WalkSteps journal.now serial (at.old, next.old) result (at.new, next.new) }
{
    c_box::walk_step(journal, serial, at, next)
}
