// The commands on held payments: one shown, what they come to, and all of them listed.
#![tactic(auto)]

ghost use Rattle.std.specs.Prelude.{◌≤◌, length};

use held::Told;
use say::{Output, fields};
use walker::Walker;

// The 32 bytes of a record.
#[derive(Clone, Copy)]
struct Record<'a> {
    bytes: &'a [u8],
    ghost whole: { 32 ≤ length bytes.now },
}

impl<'a> Record<'a> {
    // The record in these bytes, none in the empty part.
    fn of(bytes: &'a [u8]) -> Option<Record<'a>> {
        if bytes.len() < 32 {
            return None;
        }
        Some(Record { bytes })
    }

    fn serial(self) -> u64 {
        text::u32_at(self.bytes, 0) as u64
    }

    fn clock(self) -> u64 {
        text::u32_at(self.bytes, 4) as u64
    }

    fn amount(self) -> u64 {
        text::u32_at(self.bytes, 8) as u64
    }

    fn label(self) -> u64 {
        text::u16_at(self.bytes, 12) as u64
    }

    // Writes the masked text of its card, ten of whose digits are shown.
    fn card(self, out: &mut Output) {
        say::words(out, &self.bytes[16..22]);
        say::stars(out, self.bytes[14].saturating_sub(10) as usize);
        say::words(out, &self.bytes[22..26]);
    }
}

// ---- show

// A record, its bytes and what they say.
fn shown(out: &mut Output, record: Record) {
    let numbers = [
        record.serial(),
        record.clock(),
        record.amount(),
        record.label(),
    ];
    say::words(out, b"record ");
    say::hex(out, record.bytes);
    say::sentence(out, b" serial # clock # amount # label # card ", &numbers);
    record.card(out);
    say::line(out);
}

fn show_in(out: &mut Output, journal: &[u8], serial: u32) {
    match held::find(journal, serial) {
        Ok(at) => {
            if let Some(record) = Record::of(text::piece(journal, at, 32)) {
                shown(out, record);
            }
        }
        Err(why) => say::refused(out, why),
    }
}

pub fn show(out: &mut Output, line: &[u8], journal: &[u8]) {
    if let Some(serial) = fields::number(out, line, 1, 4294967295) {
        show_in(out, journal, serial as u32);
    }
}

// ---- tell

// What the journal holds, and how many bookings fit before it is full.
fn told(out: &mut Output, journal: &[u8], t: Told) {
    let left = ((journal.len() / 32) as u64).saturating_sub(t.count as u64);
    let numbers = [
        t.count as u64,
        t.sum,
        t.oldest as u64,
        t.newest as u64,
        left,
    ];
    say::sentence(out, b"held # # oldest # newest # left #\n", &numbers);
}

pub fn tell(out: &mut Output, journal: &[u8]) {
    match held::tell(journal) {
        Ok(t) => told(out, journal, t),
        Err(why) => say::refused(out, why),
    }
}

// ---- held

// The line of a held record.
fn entry(out: &mut Output, record: Record) {
    say::sentence(out, b"# # ", &[record.serial(), record.amount()]);
    record.card(out);
    say::sentence(
        out,
        b" clock # label #\n",
        &[record.clock(), record.label()],
    );
}

// Lists the held records, by rising serial, and says how many there are.
fn list(out: &mut Output, journal: &[u8], t: Told) {
    let walk = Walker {
        journal,
        next: t.oldest,
    };
    for bytes in walk {
        if let Some(record) = Record::of(bytes) {
            entry(out, record);
        }
    }
    say::sentence(out, b"done #\n", &[t.count as u64]);
}

pub fn held(out: &mut Output, journal: &[u8]) {
    match held::tell(journal) {
        Ok(t) => list(out, journal, t),
        Err(why) => say::refused(out, why),
    }
}
