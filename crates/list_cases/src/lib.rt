// Hot lists too long to write out, as long as a list may be and one number longer; and wrong ones and wrong dates, which no command keeps.
#![tactic(auto)]

mod days;

use dates::Date;
use layout::Track;
use payer::Terms;
use reasons::Reason;
use samples::{DAY, EVERY, NONE, W11};
use say::Output;
use swipe::Receipt;

// ---- the question

fn ask(out: &mut Output, list: &[u64], digits: u32, pan: &[u8]) {
    let numbers = [list.len() as u64, digits as u64];
    say::sentence(out, b"listed, of # numbers of # digits, ", &numbers);
    say::words(out, pan);
    say::words(out, b": ");
    hotcards::listed(out, list, digits, pan);
}

// Both ends, one between, and the cards beside the ends.
fn ask_ends(out: &mut Output, list: &[u64]) {
    ask(out, list, 16, b"4111111111110000");
    ask(out, list, 16, b"4111111111118191");
    ask(out, list, 16, b"4111111111111111");
    ask(out, list, 16, b"4111111111109999");
    ask(out, list, 16, b"4111111111118192");
}

// A wrong list, for what it has wrong: 21 comes before the PAN, which has 12 digits.
fn ask_wrong(out: &mut Output, what: &[u8], list: &[u64], digits: u32) {
    say::words(out, what);
    ask(out, list, digits, b"411111111111");
}

fn ask_all_wrong(out: &mut Output) {
    ask_wrong(out, b"too short: ", &NONE, 12);
    ask_wrong(out, b"too long: ", &NONE, 20);
    ask_wrong(out, b"42, 0: ", &[42, 0], 13);
    ask_wrong(out, b"42, 42: ", &[42, 42], 13);
    ask_wrong(out, b"10000000000000: ", &[10000000000000], 13);
}

// ---- the swipe

// A table of the site's, none of the acquirer's, and a list of numbers of so many digits.
fn terms<'a>(site: &'a [u8], hot: &'a [u64], digits: u32) -> Terms<'a> {
    Terms {
        site,
        acquirer: b"",
        hot,
        digits,
    }
}

// A swipe of track 2, in an empty journal of one slot.
fn swiped(
    stream: &[u8],
    bits: u64,
    terms: Terms<'_>,
    amount: u32,
    date: Date,
) -> Result<Receipt, Reason> {
    let mut scratch = [0u8; 37];
    let mut journal = [0u8; 32];
    swipe::swipe(
        Track::Two,
        stream,
        bits,
        terms,
        amount,
        date,
        0,
        &mut scratch,
        &mut journal,
    )
}

// The days that a card has left.
fn left_of(out: &mut Output, left: Option<u32>) {
    match left {
        Some(days) => say::value(out, b"days ", days as u64),
        None => say::words(out, b"no expiry"),
    }
}

fn answered(out: &mut Output, answer: Result<Receipt, Reason>) {
    match answer {
        Ok(receipt) => {
            say::words(out, b"booked, ");
            left_of(out, receipt.left);
            say::line(out);
        }
        Err(why) => say::refused(out, why),
    }
}

// W11 swiped with this table of the site's and this list.
fn swipe(out: &mut Output, site: &[u8], list: &[u64], digits: u32, amount: u32) {
    let numbers = [
        amount as u64,
        site.len() as u64,
        list.len() as u64,
        digits as u64,
    ];
    say::sentence(
        out,
        b"swipe of W11 for #, a table of # bytes, # numbers of # digits: ",
        &numbers,
    );
    answered(
        out,
        swiped(&W11, 135, terms(site, list, digits), amount, DAY),
    );
}

// A wrong list comes after a wrong table, and before an amount of 0.
fn swipe_wrong(out: &mut Output) {
    swipe(out, &EVERY[..15], &NONE, 12, 0);
    swipe(out, &EVERY, &NONE, 12, 0);
    swipe(out, &EVERY, &NONE, 13, 0);
}

// ---- the longest list

// Numbers that rise by one.
fn rising() -> [u64; 8193] {
    let mut list = [0u64; 8193];
    for i in 0..8193 {
        list[i] = 4111111111110000 + i as u64;
    }
    list
}

fn longest(out: &mut Output, list: &[u64; 8193]) {
    ask_ends(out, &list[..8192]);
    ask(out, list, 16, b"4111111111110000");
    swipe(out, &EVERY, &list[..8192], 16, 250);
    swipe(out, &EVERY, &list[..1112], 16, 250);
    swipe(out, &EVERY, &list[..1111], 16, 250);
    swipe(out, &EVERY, list, 16, 250);
}

pub fn run(out: &mut Output) {
    let list = rising();
    say::words(
        out,
        b"\n# Long hot lists, and wrong ones, which no command keeps\n",
    );
    longest(out, &list);
    ask_all_wrong(out);
    swipe_wrong(out);
    days::run(out);
}
