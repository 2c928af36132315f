// The range tables of the site and the acquirer, and the look-up.
use ranges::Place;
use say::{Output, fields};

// A table's records; bytes over are told too, since a look-up refuses such a table.
fn records(out: &mut Output, name: &[u8], length: usize) {
    let numbers = [(length / 16) as u64, (length % 16) as u64];
    say::words(out, name);
    if length % 16 == 0 {
        say::sentence(out, b"# records\n", &numbers);
    } else {
        say::sentence(out, b"# records and # bytes\n", &numbers);
    }
}

// Takes a table from a line. The answer is how many bytes of the buffer are in use from now on: those in use before where the
// line isn't understood.
pub fn take_in(out: &mut Output, name: &[u8], line: &[u8], table: &mut [u8], used: usize) -> usize {
    let Some(n) = fields::bytes(out, line, table) else {
        return used;
    };
    records(out, name, n);
    n
}

fn record(out: &mut Output, name: &[u8], at: usize, bytes: &[u8]) {
    say::value(out, name, (at / 16) as u64);
    say::words(out, b" ");
    say::hex(out, bytes);
    say::line(out);
}

pub fn range(out: &mut Output, site: &[u8], acquirer: &[u8], pan: &[u8]) {
    match ranges::find(site, acquirer, pan) {
        Ok(Place::Site(at)) => record(out, b"site ", at, text::piece(site, at, 16)),
        Ok(Place::Acquirer(at)) => record(out, b"acquirer ", at, text::piece(acquirer, at, 16)),
        Err(why) => say::refused(out, why),
    }
}
