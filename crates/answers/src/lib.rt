// The commands that keep nothing from line to line: on texts, and looks at the journal.
#![tactic(auto)]

use checks::texts;
use journals::{memory, survey};
use menu::{Command, Looking, OnGroups, OnStripe, OnText, Row};
use say::{Output, fields};

// ---- whether a line has its words; where it hasn't, that is answered

// Whether a word is empty. Of a text in groups the spaces don't count, but the word before it does.
fn has_gap(row: Row, line: &[u8]) -> bool {
    if !row.grouped {
        return script::has_gap(line);
    }
    if row.least < 2 {
        return false;
    }
    script::word(line, row.least - 1).len() == 0
}

fn has_count(out: &mut Output, row: Row, n: usize) -> bool {
    if n < row.least {
        fields::unclear(out, b"too few words");
        return false;
    }
    if row.most < n {
        fields::unclear(out, b"too many words");
        return false;
    }
    true
}

pub fn is_clear(out: &mut Output, row: Row, line: &[u8]) -> bool {
    if has_gap(row, line) {
        fields::unclear(out, b"an empty word (- stands for an empty text)");
        return false;
    }
    has_count(out, row, script::operands(line))
}

// ---- texts

fn on_text(out: &mut Output, c: OnText, line: &[u8]) {
    let text = script::text_of(script::word(line, 1));
    match c {
        OnText::Luhn => texts::luhn_test(out, text),
        OnText::LuhnMake => texts::luhn_make(out, text),
        OnText::Mask => texts::mask(out, text),
        OnText::Layout => tracks::divide(out, text),
    }
}

fn on_solid(out: &mut Output, c: OnGroups, line: &[u8], text: &[u8]) {
    match c {
        OnGroups::Iban => texts::iban_test(out, text),
        OnGroups::IbanMake => texts::iban_make(out, script::text_of(script::word(line, 1)), text),
        OnGroups::Creditor => texts::creditor_test(out, text),
        OnGroups::CreditorMake => texts::creditor_make(out, text),
    }
}

// A text in groups starts at word k. What goes beyond 64 bytes is left out: it is too long all the same.
fn on_groups(out: &mut Output, c: OnGroups, line: &[u8], k: usize) {
    let mut room = [0u8; 64];
    let n = script::solid(script::from_word(line, k), &mut room);
    on_solid(out, c, line, script::text_of(text::piece(&room, 0, n)));
}

// ---- the stripe

fn on_stripe(out: &mut Output, c: OnStripe, line: &[u8]) {
    match c {
        OnStripe::Track(t) => tracks::track(out, t, line),
        OnStripe::Layout1 => tracks::layout1(out, line),
    }
}

// ---- the journal

// The journal can't be used any more.
pub fn lost(out: &mut Output) {
    say::words(out, b"disk error: no journal until the next start\n");
}

fn look_at(out: &mut Output, c: Looking, line: &[u8], journal: &[u8]) {
    match c {
        Looking::Dump => memory::dump(out, journal),
        Looking::Survey => survey::survey(out, journal),
        Looking::Salvage => salvaging::salvage(out, journal),
        Looking::Show => listings::show(out, line, journal),
        Looking::Tell => listings::tell(out, journal),
        Looking::Held => listings::held(out, journal),
    }
}

// Answers a line that has its words, given the journal where it can be used; the commands that keep something have answers elsewhere.
pub fn answer(out: &mut Output, row: Row, line: &[u8], journal: Option<&[u8]>) {
    match row.command {
        Command::Text(c) => on_text(out, c, line),
        Command::Groups(c) => on_groups(out, c, line, row.least),
        Command::Stripe(c) => on_stripe(out, c, line),
        Command::Look(c) => match journal {
            Some(bytes) => look_at(out, c, line, bytes),
            None => lost(out),
        },
        Command::Help => menu::help(out),
        _ => {}
    }
}
