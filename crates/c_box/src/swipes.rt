ghost use Rattle.payer.specs.Payer.{terms_of, given};
ghost use Rattle.c_box.specs.Calls.{Swipes};

use dates::Date;
use layout::Track;
use payer::Terms;

// A swipe of this track, its serial handed over, whether the card expires, and the days left where it does.
pub fn swipe(
    track: Track,
    stream: &[u8],
    bits: u64,
    terms: Terms,
    amount: u32,
    date: Date,
    clock: u32,
    scratch: &mut [u8],
    journal: &mut [u8],
    serial: &mut u32,
    expires: &mut u32,
    days: &mut u32,
) -> u32
    ensures { Swipes (given track stream.now bits (terms_of terms.entry) date) amount clock
        scratch.old journal.old (serial.old, expires.old, days.old)
        result (serial.new, expires.new, days.new) scratch.new journal.new }
{
    match swipe::swipe(
        track, stream, bits, terms, amount, date, clock, scratch, journal,
    ) {
        Ok(receipt) => {
            *serial = receipt.serial;
            match receipt.left {
                Some(left) => {
                    *expires = 1;
                    *days = left;
                    0
                }
                None => {
                    *expires = 0;
                    0
                }
            }
        }
        Err(why) => reasons::number(why),
    }
}
