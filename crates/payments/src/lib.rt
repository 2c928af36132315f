// The journal that the commands are on, in memory or in a file, and those that change it: book, swipe, release. One that could not be
// written can't be used any more, so that nothing is told that the file may not hold.
#![tactic(auto)]

ghost use Rattle.std.specs.Prelude.{◌≡◌, ◌≤◌, IfSome};

use dates::Date;
use disk::Fault;
use journal::Released;
use layout::Track;
use payer::Terms;
use say::{Output, fields};
use std::fmt::Write;
use std::fs::File;
use swipe::Receipt;

// What can be done with a journal: changed, looked at alone, or nothing any more.
#[derive(Clone, Copy, Debug, PartialEq, Eq)]
pub enum Access {
    Change,
    Look,
    Lost,
}

// As many bytes as the longest journal has, and one more, which makes a longer file one of a wrong length.
const ROOM: usize = 65537;

// The journal's bytes, at the front of a buffer, and how many they are; its file, where it is one.
#[derive(Drop)]
pub struct Journal {
    pub bytes: [u8; ROOM],
    pub length: usize,
    pub file: Option<File>,
    pub access: Access,
}

impl Journal {
    // An empty one of 2,048 slots in memory.
    pub fn new() -> Journal
        ensures { result.length ≡ 65536 }
    {
        Journal {
            bytes: [0; ROOM],
            length: 65536,
            file: None,
            access: Access::Change,
        }
    }

    // How many bytes of the buffer are in use: so many, or all.
    pub fn in_use(&self) -> usize
        ensures { result ≤ 65537 }
    {
        self.length.min(ROOM)
    }

    pub fn used(&self) -> &[u8] {
        &self.bytes[..self.in_use()]
    }
}

// ---- the disk

// A disk error is said in a line; the system's word for it goes to standard error.
fn failed(out: &mut Output, fault: Fault) {
    out.fail(b"card", fault.why);
    let _ = writeln!(out, "disk error: the journal could not be {}", fault.step);
}

// Sees the records of `count` serials from `first` on in the file, where there is one: whether they are there.
fn kept(out: &mut Output, journal: &mut Journal, first: u32, count: u32) -> bool {
    let Some(file) = &journal.file else {
        return true;
    };
    match disk::write(file, journal.used(), first, count) {
        Ok(()) => true,
        Err(fault) => {
            failed(out, fault);
            journal.access = Access::Lost;
            false
        }
    }
}

// ---- book and swipe

// Answers a booking, in words with numbers among them, once it is on the disk.
fn booked(out: &mut Output, journal: &mut Journal, serial: u32, form: &[u8], numbers: &[u64]) {
    if kept(out, journal, serial, 1) {
        say::sentence(out, form, numbers);
    }
}

// What book and swipe have in common, words 2 to 4 of a line: a number, which is a booking's label and a swipe's bit count, an amount, a clock.
#[derive(Clone, Copy)]
struct Sale {
    number: u64,
    amount: u32,
    clock: u32,
}

fn sale_of(out: &mut Output, line: &[u8], most: u64) -> Option<Sale>
    ensures { IfSome result (λ s. s.number ≤ most) }
{
    let number = fields::number(out, line, 2, most)?;
    let amount = fields::number(out, line, 3, 4294967295)?;
    let clock = fields::number(out, line, 4, 4294967295)?;
    Some(Sale {
        number,
        amount: amount as u32,
        clock: clock as u32,
    })
}

pub fn book(out: &mut Output, line: &[u8], journal: &mut Journal) {
    let Some(sale) = sale_of(out, line, 65535) else {
        return;
    };
    let pan = script::text_of(script::word(line, 1));
    let label = sale.number as u16;
    let n = journal.in_use();
    match journal::book(&mut journal.bytes[..n], pan, label, sale.amount, sale.clock) {
        Ok(serial) => booked(out, journal, serial, b"booked #\n", &[serial as u64]),
        Err(why) => say::refused(out, why),
    }
}

// Answers a swipe that was booked: its serial, and what its card has left.
fn swiped(out: &mut Output, journal: &mut Journal, receipt: Receipt) {
    let serial = receipt.serial;
    match receipt.left {
        Some(days) => {
            let numbers = [serial as u64, days as u64];
            booked(out, journal, serial, b"booked # days #\n", &numbers);
        }
        None => booked(
            out,
            journal,
            serial,
            b"booked # no expiry\n",
            &[serial as u64],
        ),
    }
}

pub fn swipe(
    out: &mut Output,
    track: Track,
    line: &[u8],
    terms: Terms<'_>,
    date: Date,
    journal: &mut Journal,
) {
    let mut stream = [0u8; 70000];
    let Some(n) = fields::bytes(out, line, &mut stream) else {
        return;
    };
    let Some(sale) = sale_of(out, line, 18446744073709551615) else {
        return;
    };
    // enough for either track
    let mut scratch = [0u8; 76];
    let used = journal.in_use();
    match swipe::swipe(
        track,
        &stream[..n],
        sale.number,
        terms,
        sale.amount,
        date,
        sale.clock,
        &mut scratch,
        &mut journal.bytes[..used],
    ) {
        Ok(receipt) => swiped(out, journal, receipt),
        Err(why) => say::refused(out, why),
    }
}

// ---- release

// The first of `count` serials that end with s; any where there are none.
fn first_of(s: u32, count: u32) -> u32 {
    if count == 0 {
        return s;
    }
    if s < count {
        return 1;
    }
    s - (count - 1)
}

// Answers a release once it is on the disk.
fn released(out: &mut Output, journal: &mut Journal, s: u32, those: Released) {
    if kept(out, journal, first_of(s, those.count), those.count) {
        say::sentence(out, b"released # #\n", &[those.count as u64, those.sum]);
    }
}

pub fn release(out: &mut Output, line: &[u8], journal: &mut Journal) {
    let Some(serial) = fields::number(out, line, 1, 4294967295) else {
        return;
    };
    let s = serial as u32;
    let n = journal.in_use();
    match journal::release(&mut journal.bytes[..n], s) {
        Ok(those) => released(out, journal, s, those),
        Err(why) => say::refused(out, why),
    }
}
