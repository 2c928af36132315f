// A slot in a line: its number, its state, the fields of its record, and what is wrong with it.
#![tactic(auto)]

use remains::{Fields, Slot, Tests};
use say::Output;

// ---- the card

// Digits, `?` for a byte that is none: a damaged record may hold any byte.
fn digits(out: &mut Output, part: &[u8]) {
    for &b in part {
        out.put(if text::is_digit(b) { b } else { b'?' });
    }
}

// A star for each hidden digit of a card number of n digits, `?` where n is no such number's length.
fn stars(out: &mut Output, n: u8) {
    match n {
        13..=19 => say::stars(out, (n - 10) as usize),
        _ => out.put(b'?'),
    }
}

fn card(out: &mut Output, record: &[u8], length: u8) {
    digits(out, text::piece(record, 16, 6));
    stars(out, length);
    digits(out, text::piece(record, 22, 4));
}

// ---- the fields

fn fields(out: &mut Output, record: &[u8], f: Fields) {
    let numbers = [
        f.serial as u64,
        f.amount as u64,
        f.label as u64,
        f.clock as u64,
    ];
    say::sentence(out, b" serial # amount # label # clock # card ", &numbers);
    card(out, record, f.length);
}

// ---- what is wrong

fn fault(out: &mut Output, passes: bool, words: &[u8]) {
    if !passes {
        say::words(out, words);
    }
}

fn fault_value(out: &mut Output, passes: bool, name: &[u8], n: u64) {
    if !passes {
        say::value(out, name, n);
    }
}

// The slot in which a serial belongs, of n slots.
fn slot_of(serial: u32, n: usize) -> u64 {
    if serial == 0 || n == 0 {
        return 0;
    }
    ((serial - 1) as usize % n) as u64
}

fn serial_faults(out: &mut Output, serial: u32, t: Tests, n: usize) {
    fault(out, t.serial, b"; serial 0");
    if 0 < serial {
        fault_value(
            out,
            t.slot,
            b"; serial belongs in slot ",
            slot_of(serial, n),
        );
    }
}

fn card_faults(out: &mut Output, length: u8, t: Tests) {
    fault_value(out, t.length, b"; card length ", length as u64);
    fault(out, t.digits, b"; digits that are no digits");
    fault(out, t.zeros, b"; zeros that are not 0");
}

fn faults(out: &mut Output, f: Fields, t: Tests, n: usize) {
    serial_faults(out, f.serial, t, n);
    fault_value(out, t.state, b"; state ", f.state as u64);
    fault(out, t.amount, b"; amount 0");
    card_faults(out, f.length, t);
}

// ---- the slot

fn whole(out: &mut Output, record: &[u8], k: usize, state: &[u8], f: Fields) {
    say::value(out, b"slot ", k as u64);
    say::words(out, state);
    fields(out, record, f);
}

// Writes what slot k of n says, given its bytes; nothing where it is free.
pub fn told(out: &mut Output, record: &[u8], n: usize, k: usize, s: Slot) {
    match s {
        Slot::Free => {}
        Slot::Held(f) => {
            whole(out, record, k, b" held", f);
            say::line(out);
        }
        Slot::Released(f) => {
            whole(out, record, k, b" released", f);
            say::line(out);
        }
        Slot::Damaged(f, t) => {
            whole(out, record, k, b" damaged", f);
            faults(out, f, t, n);
            say::line(out);
        }
    }
}
