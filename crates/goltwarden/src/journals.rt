// The journal: gw_journal_book, gw_journal_release, gw_journal_show, gw_journal_tell, gw_journal_survey.
ghost use Rattle.c_box.specs.Calls.{JournalBooks, JournalReleases, JournalShows, JournalTells, JournalSurveys};

#[unsafe(no_mangle)]
pub extern "C" fn gw_journal_book(
    journal: &mut [u8],
    pan: &[u8],
    label: u16,
    amount: u32,
    clock: u32,
    serial: &mut u32,
) -> u32
    ensures { JournalBooks journal.old pan.now label amount clock
        serial.old result serial.new journal.new }
{
    c_box::journal_book(journal, pan, label, amount, clock, serial)
}

#[unsafe(no_mangle)]
pub extern "C" fn gw_journal_release(
    journal: &mut [u8],
    serial: u32,
    count: &mut u32,
    sum: &mut u64,
) -> u32
    ensures { JournalReleases journal.old serial
        (count.old, sum.old) result (count.new, sum.new) journal.new }
{
    c_box::journal_release(journal, serial, count, sum)
}

#[unsafe(no_mangle)]
pub extern "C" fn gw_journal_show(journal: &[u8], serial: u32, at: &mut u32) -> u32
    ensures { JournalShows journal.now serial at.old result at.new }
{
    c_box::journal_show(journal, serial, at)
}

#[unsafe(no_mangle)]
pub extern "C" fn gw_journal_tell(
    journal: &[u8],
    count: &mut u32,
    sum: &mut u64,
    oldest: &mut u32,
    newest: &mut u32,
) -> u32
    ensures { JournalTells journal.now
        (count.old, sum.old, oldest.old, newest.old) result
        (count.new, sum.new, oldest.new, newest.new) }
{
    c_box::journal_tell(journal, count, sum, oldest, newest)
}

#[unsafe(no_mangle)]
pub extern "C" fn gw_journal_survey(journal: &[u8], states: &mut [u8], formed: &mut u32) -> u32
    ensures { JournalSurveys journal.now states.old formed.old result formed.new states.new }
{
    c_box::journal_survey(journal, states, formed)
}
