// Checks on texts: Luhn, IBAN, creditor reference, masking.
use reasons::Reason;
use say::Output;

pub fn luhn_test(out: &mut Output, text: &[u8]) {
    say::tested(out, luhn::test(text));
}

pub fn luhn_make(out: &mut Output, body: &[u8]) {
    match luhn::make(body) {
        Ok(digit) => {
            say::named(out, b"digit ", &[digit]);
            say::line(out);
        }
        Err(why) => say::refused(out, why),
    }
}

pub fn iban_test(out: &mut Output, text: &[u8]) {
    say::tested(out, iban::test(text));
}

// A check pair, two digits, or why there is none.
fn made(out: &mut Output, pair: Result<u32, Reason>) {
    match pair {
        Ok(n) => {
            let name: &[u8] = if n < 10 { b"pair 0" } else { b"pair " };
            say::value(out, name, u64::from(n));
            say::line(out);
        }
        Err(why) => say::refused(out, why),
    }
}

pub fn iban_make(out: &mut Output, country: &[u8], body: &[u8]) {
    made(out, iban::make(country, body));
}

pub fn creditor_test(out: &mut Output, text: &[u8]) {
    say::tested(out, creditor::test(text));
}

pub fn creditor_make(out: &mut Output, body: &[u8]) {
    made(out, creditor::make(body));
}

pub fn mask(out: &mut Output, pan: &[u8]) {
    let mut masked = [0u8; 19];
    match pan::mask(pan, &mut masked) {
        Ok(()) => {
            say::named(out, b"masked ", text::piece(&masked, 0, pan.len()));
            say::line(out);
        }
        Err(why) => say::refused(out, why),
    }
}
