// Runs a script of what happens between box and host: the box's calls, the records that it sends, and the messages and answers that arrive. Box and
// host agree then, whatever the script lets the channel lose, repeat or bring out of order.
#![tactic(auto)]

ghost use Rattle.std.specs.Prelude.{◌≡◌, cond, List, ℕ, eqb, leb, length, take, drop};
ghost use Rattle.reasons.specs.Reasons.{after};
ghost use Rattle.slots.specs.Views.{Seen};
ghost use Rattle.held.specs.Rules.{show_rule};
ghost use Rattle.payer.specs.Payer.{terms_of};
ghost use Rattle.plays.specs.Script.{clock_at, serial_at, PlaysOne, script_rule};
ghost use Rattle.exchange.specs.Exchange.{answer, own_at, turn_at, posted, Exchanges, Agrees};
ghost use Rattle.exchange.specs.Inner.{state, Heard, Took};

use ledger::Ledger;
use payer::Terms;
use plays::{Totals, Unplayed};

// What it came to: the host's ledger, and the totals of the box's calls.
#[derive(Clone, Copy)]
pub struct Sums {
    pub ledger: Ledger,
    pub totals: Totals,
}

// ---- the air

// Puts a record into a place of the air, if there is such a place.
fn post(air: &mut [u8], place: usize, message: &[u8])
    requires { length message.now ≡ 32 }
    ensures { air.new ≡ posted air.old place message.now }
{
    if place < air.len() / 32 {
        text::put_at(air, 32 * place, message);
    }
}

// The box sends the record of a serial, if it is held.
fn send(journal: &[u8], serial: u32, air: &mut [u8], place: usize)
    ensures { Seen journal.now (λ m. air.new ≡ after (show_rule m journal.now serial) air.old
        (λ at. posted air.old place (take 32 (drop at journal.now)))) }
{
    if let Ok(at) = held::find(journal, serial) {
        post(air, place, &journal[at..at + 32]);
    }
}

// ---- the host

// The host: its ledger, and whether it has answered 0 by now.
#[derive(Clone, Copy)]
struct Host {
    ledger: Ledger,
    zero: bool,
}

impl Host {
    // It hears a message, and answers with the last serial taken, unless it refuses the message.
    fn hear(&mut self, message: &[u8])
        ensures { Heard self.old message.now self.new }
    {
        if let Ok(ledger) = ledger::take(self.ledger, message) {
            self.zero = self.zero || ledger.taken == 0;
            self.ledger = ledger;
        }
    }

    // Whether it has answered with a serial.
    fn has_answered(&self, serial: u32) -> bool
        ensures { result ≡ cond (eqb serial 0) self.now.zero (leb serial self.now.ledger.taken) }
    {
        if serial == 0 {
            return self.zero;
        }
        serial <= self.ledger.taken
    }
}

// ---- one record

// What the first byte of a record asks for; any other is a call of the box.
const SEND: u8 = 5;

const DELIVER: u8 = 6;

const ANSWER: u8 = 7;

// A release that the script asks for: it is passed over.
const RELEASE: u8 = 2;

// An answer arrives at the box, if it was sent.
fn answer(r: &[u8; 128], journal: &mut [u8], host: &Host) -> Totals
    ensures { (t a : List ℕ) → Took (state t journal.old a host.now) (clock_at r.now 0)
        (answer (serial_at r.now 0)) result (state t journal.new a host.now) }
{
    let serial = text::u32_at(r, 12);
    if !host.has_answered(serial) {
        return Totals::default();
    }
    plays::play_release(r, journal)
}

// Makes the box's own call: a release that the script asks for is passed over.
fn own_call(r: &[u8; 128], terms: Terms, scratch: &mut [u8], journal: &mut [u8]) -> Totals
    ensures { PlaysOne (own_at r.now (terms_of terms.entry) scratch.old 0) (clock_at r.now 0)
        scratch.old journal.old result scratch.new journal.new }
{
    if r[0] == RELEASE {
        return plays::one_skipped();
    }
    plays::play(r, terms, scratch, journal)
}

// Takes the turn of a record.
fn turn(
    r: &[u8; 128],
    terms: Terms,
    scratch: &mut [u8],
    journal: &mut [u8],
    air: &mut [u8],
    host: &mut Host,
) -> Totals
    ensures { Took (state scratch.old journal.old air.old host.old) (clock_at r.now 0)
        (turn_at r.now (terms_of terms.entry) scratch.old 0)
        result (state scratch.new journal.new air.new host.new) }
{
    let place = text::u32_at(r, 16) as usize;
    match r[0] {
        SEND => {
            send(journal, text::u32_at(r, 12), air, place);
            Totals::default()
        }
        DELIVER => {
            host.hear(text::piece(air, 32 * place, 32));
            Totals::default()
        }
        ANSWER => answer(r, journal, host),
        _ => own_call(r, terms, scratch, journal),
    }
}

// ---- all of them

// Runs a script on the lent terms, scratch and journal, with the air between the journal's box and the host of the ledger, and answers what it came
// to, or why no record was run.
pub fn run(
    script: &[u8],
    terms: Terms,
    scratch: &mut [u8],
    journal: &mut [u8],
    air: &mut [u8],
    ledger: Ledger,
) -> Result<Sums, Unplayed>
    ensures exchanges { Exchanges script.now (terms_of terms.entry) scratch.old journal.old air.old ledger
        (script_rule script.now) result scratch.new journal.new air.new }
    ensures agrees { Agrees script.now (terms_of terms.entry) scratch.old journal.old air.old ledger
        result scratch.new journal.new air.new }
{
    let records = plays::records_of(script)?;
    air.fill(0);
    let mut host = Host {
        ledger,
        zero: false,
    };
    let mut totals = Totals::default();
    for r in records {
        totals = plays::add(totals, turn(r, terms, scratch, journal, air, &mut host));
    }
    Ok(Sums {
        ledger: host.ledger,
        totals,
    })
}
