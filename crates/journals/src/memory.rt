// A journal in memory, filled by lines: slots, journal; and the lines that would fill it so: dump.
ghost use Rattle.std.specs.Prelude.{◌+◌, ◌*◌, ◌≤◌, ◌<◌, length};

use crate::survey;
use say::{Output, fields};

fn so_many(out: &mut Output, n: u64) {
    say::sentence(out, b"slots #\n", &[n]);
}

// A journal of n empty slots, where there can be so many.
fn empty(out: &mut Output, n: u64, journal: &mut [u8]) -> Option<usize> {
    if !(1..=2048).contains(&n) {
        fields::unclear(out, b"slots are 1 to 2048");
        return None;
    }
    journal.fill(0);
    so_many(out, n);
    Some(32 * (n as usize))
}

// A new, empty journal: how many bytes it has; none where the line isn't understood, which is answered.
pub fn slots(out: &mut Output, line: &[u8], journal: &mut [u8]) -> Option<usize> {
    let n = fields::number(out, line, 1, 4294967295)?;
    empty(out, n, journal)
}

// A journal with the bytes of a line: how many they are, none where they aren't understood, which is answered. It is surveyed at once.
pub fn load(out: &mut Output, line: &[u8], journal: &mut [u8]) -> Option<usize> {
    let n = fields::bytes(out, line, journal)?;
    survey::survey(out, &journal[..n]);
    Some(n)
}

// ---- one slot

fn put_slot(out: &mut Output, journal: &mut [u8], k: usize, bytes: &[u8; 32])
    requires { (32 * k + 32 ≤ length journal.old) × (k ≤ 4294967295) }
{
    text::put_at(journal, 32 * k, bytes);
    say::sentence(out, b"slot #\n", &[k as u64]);
}

// The 32 bytes of a line into slot k.
fn fill_slot(out: &mut Output, line: &[u8], journal: &mut [u8], k: usize)
    requires { (32 * k + 32 ≤ length journal.old) × (k ≤ 4294967295) }
{
    let mut bytes = [0u8; 32];
    let Some(n) = fields::bytes_of(out, script::word(line, 2), &mut bytes) else {
        return;
    };
    if n != 32 {
        fields::unclear(out, b"a slot has 32 bytes");
        return;
    }
    put_slot(out, journal, k, &bytes);
}

// The bytes of a line into the slot that it names.
pub fn slot(out: &mut Output, line: &[u8], journal: &mut [u8]) {
    let Some(number) = fields::number(out, line, 1, 4294967295) else {
        return;
    };
    let k = number as usize;
    if journal.len() / 32 <= k {
        fields::unclear(out, b"the journal has no such slot");
        return;
    }
    fill_slot(out, line, journal, k);
}

// ---- dump

// The line of a slot that isn't all zero.
fn used(out: &mut Output, k: usize, bytes: &[u8]) {
    if slots::zeros(bytes, 0, bytes.len()) {
        return;
    }
    say::sentence(out, b"journal # ", &[k as u64]);
    say::hex(out, bytes);
    say::line(out);
}

// The journal as lines that can be given back.
pub fn dump(out: &mut Output, journal: &[u8]) {
    let n = journal.len();
    if !slots::is_sized(n) {
        survey::wrong_length(out, n);
        return;
    }
    so_many(out, (n / 32) as u64);
    for (k, slot) in journal.chunks_exact(32).enumerate() {
        used(out, k, slot);
    }
}
