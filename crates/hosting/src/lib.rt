// The commands of the host's ledger: a fresh one, and a message that it takes.
#![tactic(auto)]

use ledger::Ledger;
use say::{Output, fields};

// A ledger's two numbers in a sentence.
fn told(out: &mut Output, form: &[u8], ledger: Ledger) {
    say::sentence(out, form, &[ledger.taken as u64, ledger.total]);
}

pub fn fresh(out: &mut Output) -> Ledger {
    let ledger = ledger::fresh();
    told(out, b"ledger # #\n", ledger);
    ledger
}

// Takes the message of a line, any bytes that a line has room for: the ledger after it. One that is refused leaves it as it is.
pub fn take(out: &mut Output, line: &[u8], ledger: Ledger) -> Ledger {
    let mut room = [0u8; 70000];
    let Some(n) = fields::bytes(out, line, &mut room) else {
        return ledger;
    };
    match ledger::take(ledger, &room[..n]) {
        Ok(next) => {
            told(out, b"taken # total #\n", next);
            next
        }
        Err(why) => {
            say::refused(out, why);
            ledger
        }
    }
}
