// The journal: journal_book, journal_release, journal_show, journal_tell, journal_survey.
ghost use Rattle.c_box.specs.Calls.{JournalBooks, JournalReleases, JournalShows, JournalTells, JournalSurveys};

pub fn journal_book(
    journal: &mut [u8],
    pan: &[u8],
    label: u16,
    amount: u32,
    clock: u32,
    serial: &mut u32,
) -> u32
    ensures { JournalBooks journal.old pan.now label amount clock
        serial.old result serial.new journal.new }
{
    match journal::book(journal, pan, label, amount, clock) {
        Ok(s) => {
            *serial = s;
            0
        }
        Err(why) => reasons::number(why),
    }
}

pub fn journal_release(journal: &mut [u8], serial: u32, count: &mut u32, sum: &mut u64) -> u32
    ensures { JournalReleases journal.old serial
        (count.old, sum.old) result (count.new, sum.new) journal.new }
{
    match journal::release(journal, serial) {
        Ok(released) => {
            *count = released.count;
            *sum = released.sum;
            0
        }
        Err(why) => reasons::number(why),
    }
}

pub fn journal_show(journal: &[u8], serial: u32, at: &mut u32) -> u32
    ensures { JournalShows journal.now serial at.old result at.new }
{
    match held::find(journal, serial) {
        Ok(a) => {
            *at = a as u32;
            0
        }
        Err(why) => reasons::number(why),
    }
}

pub fn journal_tell(
    journal: &[u8],
    count: &mut u32,
    sum: &mut u64,
    oldest: &mut u32,
    newest: &mut u32,
) -> u32
    ensures { JournalTells journal.now
        (count.old, sum.old, oldest.old, newest.old) result
        (count.new, sum.new, oldest.new, newest.new) }
{
    match held::tell(journal) {
        Ok(told) => {
            *count = told.count;
            *sum = told.sum;
            *oldest = told.oldest;
            *newest = told.newest;
            0
        }
        Err(why) => reasons::number(why),
    }
}

pub fn journal_survey(journal: &[u8], states: &mut [u8], formed: &mut u32) -> u32
    ensures { JournalSurveys journal.now states.old formed.old result formed.new states.new }
{
    match surveys::survey(journal, states) {
        Ok(well) => {
            *formed = well as u32;
            0
        }
        Err(why) => reasons::number(why),
    }
}
