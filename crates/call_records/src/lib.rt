// A script (docs/FORMATS.md) that is written record after record, one function a kind.
#![tactic(auto)]

ghost use Rattle.std.specs.Prelude.{◌+◌, ◌≤◌, length};

use dates::Date;
use samples::{E1, W11};

// ---- a record

// What a record asks.
#[derive(Clone, Copy)]
enum Kind {
    Book = 1,
    Release = 2,
    Swipe2 = 3,
    Swipe1 = 4,
    Send = 5,
    Deliver = 6,
    Answer = 7,
    Unknown = 9,
}

// A record; what its kind has no use for is ignored. `serial` is a swipe's date too, and `place` its bit count.
#[derive(Clone, Copy)]
struct Record<'a> {
    kind: Kind,
    amount: u32,
    clock: u32,
    serial: u32,
    place: u32,
    bytes: &'a [u8],
}

// A record of no known kind.
const UNKNOWN: Record<'static> = Record {
    kind: Kind::Unknown,
    amount: 0,
    clock: 0,
    serial: 0,
    place: 0,
    bytes: b"",
};

// Writes a number into a record.
fn put_number(room: &mut [u8; 128], at: usize, n: u32)
    requires { at + 4 ≤ 128 }
{
    text::put_at(room, at, &text::le32_of(n));
}

impl Record<'_> {
    // The record's bytes; none where a stripe's don't fit. A PAN has 16 digits, and label 7.
    fn written(self) -> Option<[u8; 128]> {
        if 108 < self.bytes.len() {
            return None;
        }
        let mut room = [0u8; 128];
        text::put_at(&mut room, 0, &[self.kind as u8, 16, 7, 0]);
        put_number(&mut room, 4, self.amount);
        put_number(&mut room, 8, self.clock);
        put_number(&mut room, 12, self.serial);
        put_number(&mut room, 16, self.place);
        text::put_at(&mut room, 20, self.bytes);
        Some(room)
    }
}

// A date as one number: the year in its lower half, then a byte for the month and one for the day.
fn packed(date: Date) -> u32 {
    date.year % 65536 + 65536 * (date.month % 256) + 16777216 * (date.day % 256)
}

// ---- a script

// A swipe: an amount on a date, while the clock says what it says, and the bits of a stripe.
#[derive(Clone, Copy)]
pub struct Swipe<'a> {
    pub amount: u32,
    pub date: Date,
    pub clock: u32,
    pub bits: u32,
    pub stream: &'a [u8],
}

// The card of W11 swiped.
pub fn w11(amount: u32, date: Date, clock: u32) -> Swipe<'static> {
    Swipe {
        amount,
        date,
        clock,
        bits: 135,
        stream: &W11,
    }
}

// The card of E1 swiped.
pub fn e1(amount: u32, date: Date, clock: u32) -> Swipe<'static> {
    Swipe {
        amount,
        date,
        clock,
        bits: 259,
        stream: &E1,
    }
}

// A script with room for so many bytes, and how many are written.
#[derive(Drop)]
pub struct Script<const N: usize> {
    bytes: [u8; N],
    length: usize,
    ghost in_room: { length ≤ N },
}

impl<const N: usize> Script<N> {
    pub fn new() -> Script<N> {
        Script {
            bytes: [0; N],
            length: 0,
        }
    }

    pub fn written(&self) -> &[u8] {
        &self.bytes[..self.length]
    }

    // Puts a record behind the others, where there is room.
    fn put(&mut self, record: Record<'_>) {
        let Some(bytes) = record.written() else {
            return;
        };
        if self.bytes.len() - self.length < 128 {
            return;
        }
        text::put_at(&mut self.bytes, self.length, &bytes);
        self.length += 128;
    }

    // ---- the box's calls

    pub fn book(&mut self, amount: u32, clock: u32) {
        self.put(Record {
            kind: Kind::Book,
            amount,
            clock,
            bytes: b"4111111111111111",
            ..UNKNOWN
        });
    }

    pub fn release(&mut self, serial: u32) {
        self.put(Record {
            kind: Kind::Release,
            serial,
            ..UNKNOWN
        });
    }

    fn swipe(&mut self, kind: Kind, swipe: Swipe<'_>) {
        self.put(Record {
            kind,
            amount: swipe.amount,
            clock: swipe.clock,
            serial: packed(swipe.date),
            place: swipe.bits,
            bytes: swipe.stream,
        });
    }

    pub fn swipe2(&mut self, swipe: Swipe<'_>) {
        self.swipe(Kind::Swipe2, swipe);
    }

    pub fn swipe1(&mut self, swipe: Swipe<'_>) {
        self.swipe(Kind::Swipe1, swipe);
    }

    pub fn unknown(&mut self) {
        self.put(UNKNOWN);
    }

    // ---- what happens between box and host

    // The box sends the record of a serial into a place of the air.
    pub fn send(&mut self, serial: u32, place: u32) {
        self.put(Record {
            kind: Kind::Send,
            serial,
            place,
            ..UNKNOWN
        });
    }

    // What stands in a place of the air arrives at the host.
    pub fn deliver(&mut self, place: u32) {
        self.put(Record {
            kind: Kind::Deliver,
            place,
            ..UNKNOWN
        });
    }

    // The answer of a serial arrives at the box.
    pub fn answer(&mut self, serial: u32) {
        self.put(Record {
            kind: Kind::Answer,
            serial,
            ..UNKNOWN
        });
    }
}
