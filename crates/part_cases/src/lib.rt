// Answers that are parts of what was lent, a record's own bytes, with the companion calls that answer the number; and a walk.
#![tactic(auto)]

use say::Output;

// A number, and the bytes of the part beside it.
fn part(out: &mut Output, number: u32, bytes: &[u8]) {
    let numbers = [number as u64, bytes.len() as u64];
    say::sentence(out, b": number #, # bytes ", &numbers);
    say::hex(out, bytes);
    say::line(out);
}

// The same with what was asked, and of which text.
fn part_of(out: &mut Output, what: &[u8], text: &[u8], number: u32, bytes: &[u8]) {
    say::words(out, what);
    say::words(out, text);
    part(out, number, bytes);
}

// In a table of one range, all PANs of 16 digits, label 7.
fn look_up(out: &mut Output, pan: &[u8]) {
    let table = *b"\x00\x00\x00\x00\xFF\xFF\xFF\xFF\x07\x00\x10\x10\x00\x00\x00\x00";
    let number = ranges::look_up_number(&table, b"", pan);
    let bytes = ranges::look_up(&table, b"", pan);
    part_of(out, b"look up ", pan, number, bytes);
}

fn divide(out: &mut Output, chars: &[u8]) {
    let number = layout::divide_number(chars);
    part_of(out, b"PAN of ", chars, number, layout::pan_of(chars));
}

fn divide1(out: &mut Output, chars: &[u8]) {
    let number = layout1::divide_number(chars);
    part_of(out, b"PAN of ", chars, number, layout1::pan_of(chars));
    part_of(out, b"name of ", chars, number, layout1::name_of(chars));
}

fn show(out: &mut Output, journal: &[u8], serial: u32) {
    say::value(out, b"show ", serial as u64);
    part(
        out,
        held::show_number(journal, serial),
        held::show(journal, serial),
    );
}

// The serial of a walk's step, and the one after it.
fn step(out: &mut Output, journal: &[u8], serial: u32) -> u32 {
    if walker::held_at(journal, serial).is_empty() {
        return 0;
    }
    say::value(out, b" ", serial as u64);
    walker::next_of(journal, serial)
}

// At most three steps, and whether that is all.
fn steps(out: &mut Output, journal: &[u8]) {
    let second = step(out, journal, walker::oldest(journal));
    let third = step(out, journal, second);
    if step(out, journal, third) == 0 {
        say::words(out, b" done");
    }
}

// A walk: its number, its serials, done.
fn walk(out: &mut Output, journal: &[u8]) {
    let number = [walker::start_number(journal) as u64];
    say::sentence(out, b"walk: number #, serials", &number);
    steps(out, journal);
    say::line(out);
}

// Three payments, of which the first is released.
fn fill(journal: &mut [u8]) {
    let _ = journal::book(journal, b"4111111111111111", 7, 250, 0);
    let _ = journal::book(journal, b"378282246310005", 7, 300, 0);
    let _ = journal::book(journal, b"4111111111111111", 7, 100, 0);
    let _ = journal::release(journal, 1);
}

fn second_and_walk(out: &mut Output, journal: &[u8]) {
    show(out, journal, 2);
    walk(out, journal);
}

// An empty journal, one with payments, and the same with a byte of a free slot spoiled.
fn journals(out: &mut Output) {
    let mut j = [0u8; 128];
    walk(out, &j);
    fill(&mut j);
    show(out, &j, 1);
    second_and_walk(out, &j);
    j[127] = 1;
    second_and_walk(out, &j);
}

fn divisions(out: &mut Output) {
    divide(out, b"4111111111111111=2512101");
    divide(out, b"4111111111111111");
    divide1(out, b"B4111111111111111^DOE/JANE^2512101");
    divide1(out, b"A4111111111111111^DOE/JANE^2512101");
}

pub fn run(out: &mut Output) {
    say::words(out, b"\n# Parts of what was lent, and the walk\n");
    look_up(out, b"4111111111111111");
    look_up(out, b"378282246310005");
    divisions(out);
    journals(out);
}
