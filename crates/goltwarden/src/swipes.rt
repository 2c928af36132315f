// The swipes: gw_swipe, gw_swipe1.
ghost use Rattle.layout.specs.declared.Track.TheVariants.{Two, One};
ghost use Rattle.dates.specs.Dates.{date};
ghost use Rattle.payer.specs.Payer.{terms, given};
ghost use Rattle.c_box.specs.Calls.{Swipes};

use dates::Date;
use layout::Track;
use payer::Terms;

#[unsafe(no_mangle)]
pub extern "C" fn gw_swipe(
    stream: &[u8],
    bits: u64,
    site: &[u8],
    acquirer: &[u8],
    hot: &[u64],
    digits: u32,
    amount: u32,
    year: u32,
    month: u32,
    day: u32,
    clock: u32,
    scratch: &mut [u8],
    journal: &mut [u8],
    serial: &mut u32,
    expires: &mut u32,
    days: &mut u32,
) -> u32
    ensures { Swipes (given Two stream.now bits (terms site.now acquirer.now hot.now digits)
        (date year month day)) amount clock scratch.old journal.old (serial.old, expires.old, days.old)
        result (serial.new, expires.new, days.new) scratch.new journal.new }
{
    c_box::swipe(
        Track::Two,
        stream,
        bits,
        Terms {
            site,
            acquirer,
            hot,
            digits,
        },
        amount,
        Date { year, month, day },
        clock,
        scratch,
        journal,
        serial,
        expires,
        days,
    )
}

#[unsafe(no_mangle)]
pub extern "C" fn gw_swipe1(
    stream: &[u8],
    bits: u64,
    site: &[u8],
    acquirer: &[u8],
    hot: &[u64],
    digits: u32,
    amount: u32,
    year: u32,
    month: u32,
    day: u32,
    clock: u32,
    scratch: &mut [u8],
    journal: &mut [u8],
    serial: &mut u32,
    expires: &mut u32,
    days: &mut u32,
) -> u32
    ensures { Swipes (given One stream.now bits (terms site.now acquirer.now hot.now digits)
        (date year month day)) amount clock scratch.old journal.old (serial.old, expires.old, days.old)
        result (serial.new, expires.new, days.new) scratch.new journal.new }
{
    c_box::swipe(
        Track::One,
        stream,
        bits,
        Terms {
            site,
            acquirer,
            hot,
            digits,
        },
        amount,
        Date { year, month, day },
        clock,
        scratch,
        journal,
        serial,
        expires,
        days,
    )
}
