// The command `salvage`: a line for each slot that isn't free, one for each reason why the journal isn't well formed, and what the records come to.
#![tactic(auto)]

use journals::survey;
use remains::Counts;
use salvage::{Agreed, Verdict};
use say::Output;

// ---- slots

// What each slot says.
fn slots(out: &mut Output, journal: &[u8]) {
    let n = journal.len() / 32;
    for (k, record) in journal.chunks_exact(32).enumerate() {
        match remains::look(journal, k) {
            Ok(slot) => slot_lines::told(out, record, n, k, slot),
            Err(why) => say::refused(out, why),
        }
    }
}

// ---- reasons

fn missing(out: &mut Output, k: usize, serial: u32) {
    let numbers = [serial as u64, k as u64];
    say::sentence(out, b"serial # is missing: slot # is free\n", &numbers);
}

fn damaged(out: &mut Output, k: usize, due: u32) {
    let numbers = [k as u64, due as u64];
    if due == 0 {
        say::sentence(out, b"slot # is damaged\n", &numbers);
    } else {
        say::sentence(
            out,
            b"slot # is damaged: serial # belongs there\n",
            &numbers,
        );
    }
}

fn disagrees(out: &mut Output, k: usize, serial: u32, newest: u32) {
    let numbers = [k as u64, serial as u64, newest as u64];
    say::sentence(
        out,
        b"slot # holds serial #: most agree that the newest is #\n",
        &numbers,
    );
}

fn above(out: &mut Output, serial: u32, held: u32) {
    let numbers = [serial as u64, held as u64];
    say::sentence(
        out,
        b"serial # is released above serial #, which is held\n",
        &numbers,
    );
}

// Writes why slot k keeps the journal from being well formed, and answers whether it doesn't.
fn reason(out: &mut Output, k: usize, newest: u32, verdict: Verdict) -> bool {
    match verdict {
        Verdict::Fine => return true,
        Verdict::Missing(serial) => missing(out, k, serial),
        Verdict::Damaged(due) => damaged(out, k, due),
        Verdict::Disagrees(serial) => disagrees(out, k, serial, newest),
        Verdict::Above(serial, held) => above(out, serial, held),
    }
    false
}

fn judged(out: &mut Output, journal: &[u8], k: usize, agreed: Agreed) -> bool {
    match salvage::judge(journal, k, agreed.newest, agreed.oldest) {
        Ok(verdict) => reason(out, k, agreed.newest, verdict),
        Err(why) => {
            say::refused(out, why);
            false
        }
    }
}

// Writes every reason, and answers whether there is none: the journal is well formed.
fn reasons_told(out: &mut Output, journal: &[u8], agreed: Agreed) -> bool {
    let mut well = true;
    for k in 0..journal.len() / 32 {
        well &= judged(out, journal, k, agreed);
    }
    well
}

// ---- the whole

fn counts(out: &mut Output, c: Counts) {
    let numbers = [c.held as u64, c.sum, c.released as u64, c.damaged as u64];
    say::sentence(out, b"held # sum # released # damaged #", &numbers);
}

fn counted(out: &mut Output, journal: &[u8]) {
    match remains::count(journal) {
        Ok(c) => counts(out, c),
        Err(why) => say::refusal(out, why),
    }
}

fn whole(out: &mut Output, journal: &[u8], agreed: Agreed) {
    slots(out, journal);
    let well = reasons_told(out, journal, agreed);
    counted(out, journal);
    survey::verdict(out, well);
}

// Tells all that the bytes of a journal still say.
pub fn salvage(out: &mut Output, journal: &[u8]) {
    match salvage::agree(journal) {
        Ok(agreed) => whole(out, journal, agreed),
        Err(_) => survey::wrong_length(out, journal.len()),
    }
}
