// The commands that keep something from line to line: the tables, the hot list, the host's date, the journal, the host's ledger.
#![tactic(auto)]

ghost use Rattle.std.specs.Prelude.{◌≡◌};

use checks::{calendar, tables};
use dates::Date;
use hotcards::Kept;
use journals::memory;
use ledger::Ledger;
use menu::{Changing, Filling, OnHot, OnLedger, OnTables};
use payer::Terms;
use payments::{Access, Journal};
use say::{Output, fields};

// ---- tables

// A table of ranges, at the front of a buffer, and how many bytes it has.
#[derive(Drop)]
pub struct Table {
    bytes: [u8; 70000],
    length: usize,
}

impl Table {
    fn new() -> Table
        ensures { result.length ≡ 0 }
    {
        Table {
            bytes: [0; 70000],
            length: 0,
        }
    }

    fn used(&self) -> &[u8] {
        text::piece(&self.bytes, 0, self.length)
    }

    fn take_in(&mut self, out: &mut Output, name: &[u8], line: &[u8]) {
        let length = self.length;
        self.length = tables::take_in(out, name, line, &mut self.bytes, length);
    }
}

// ---- what cards are held against

// The tables of the site and the acquirer, and the hot list, at the front of its buffer.
#[derive(Drop)]
pub struct Lists {
    site: Table,
    acquirer: Table,
    hot: [u64; 8192],
    kept: Kept,
}

impl Lists {
    // No tables, an empty hot list.
    fn new() -> Lists
        ensures { (result.site.length ≡ 0) × (result.acquirer.length ≡ 0) }
    {
        Lists {
            site: Table::new(),
            acquirer: Table::new(),
            hot: [0; 8192],
            kept: hotcards::none(),
        }
    }

    fn terms(&self) -> Terms<'_> {
        Terms {
            site: self.site.used(),
            acquirer: self.acquirer.used(),
            hot: hotcards::in_use(&self.hot, self.kept.count),
            digits: self.kept.digits,
        }
    }
}

pub fn on_tables(out: &mut Output, c: OnTables, line: &[u8], lists: &mut Lists) {
    match c {
        OnTables::Site => lists.site.take_in(out, b"site ", line),
        OnTables::Acquirer => lists.acquirer.take_in(out, b"acquirer ", line),
        OnTables::Range => {
            let pan = script::text_of(script::word(line, 1));
            tables::range(out, lists.site.used(), lists.acquirer.used(), pan);
        }
    }
}

pub fn on_hot(out: &mut Output, c: OnHot, line: &[u8], lists: &mut Lists) {
    let kept = lists.kept;
    match c {
        OnHot::List => lists.kept = hotcards::take_in(out, line, &mut lists.hot, kept),
        OnHot::Listed => {
            let pan = script::text_of(script::word(line, 1));
            hotcards::listed(
                out,
                hotcards::in_use(&lists.hot, kept.count),
                kept.digits,
                pan,
            );
        }
    }
}

// ---- what is kept

// What is kept from command to command.
#[derive(Drop)]
pub struct Desk {
    pub lists: Lists,
    // the host's date
    pub date: Date,
    pub journal: Journal,
    // the host's ledger
    pub ledger: Ledger,
    // whether a line is shown before its answer, and whether one is asked for by a prompt
    pub shown: bool,
    pub prompt: bool,
}

impl Desk {
    // No tables, an empty hot list, no date yet, an empty journal of 2,048 slots in memory, and a fresh ledger.
    pub fn new(shown: bool) -> Desk
        ensures { (result.lists.site.length ≡ 0) × (result.lists.acquirer.length ≡ 0) × (result.journal.length ≡ 65536) }
    {
        Desk {
            lists: Lists::new(),
            date: calendar::none(),
            journal: Journal::new(),
            ledger: ledger::fresh(),
            shown,
            prompt: false,
        }
    }
}

// ---- the host's date

pub fn on_date(out: &mut Output, line: &[u8], date: Date) -> Date {
    calendar::take_in(out, line, date)
}

// ---- the journal

// Puts bytes into a slot of those in use.
fn fill_slot(out: &mut Output, line: &[u8], journal: &mut Journal) {
    let n = journal.in_use();
    memory::slot(out, line, &mut journal.bytes[..n]);
}

// A journal's bytes in memory: so many empty slots, those of a line, or a slot of them. A journal in a file isn't filled so.
pub fn in_place(out: &mut Output, c: Filling, line: &[u8], journal: &mut Journal) {
    if journal.file.is_some() {
        return fields::unclear(out, b"the journal is a file");
    }
    let filled = match c {
        Filling::Slots => memory::slots(out, line, &mut journal.bytes),
        Filling::Journal => {
            if script::operands(line) == 2 {
                return fill_slot(out, line, journal);
            }
            memory::load(out, line, &mut journal.bytes)
        }
    };
    if let Some(n) = filled {
        journal.length = n;
    }
}

fn change_in(out: &mut Output, c: Changing, line: &[u8], desk: &mut Desk) {
    match c {
        Changing::Book => payments::book(out, line, &mut desk.journal),
        Changing::Swipe(t) => {
            let terms = desk.lists.terms();
            payments::swipe(out, t, line, terms, desk.date, &mut desk.journal);
        }
        Changing::Release => payments::release(out, line, &mut desk.journal),
    }
}

// A command that changes the journal, where it can be changed.
pub fn change(out: &mut Output, c: Changing, line: &[u8], desk: &mut Desk) {
    match desk.journal.access {
        Access::Change => change_in(out, c, line, desk),
        Access::Look => fields::unclear(out, b"the journal is opened for reading alone"),
        Access::Lost => answers::lost(out),
    }
}

// ---- the host's ledger

pub fn on_ledger(out: &mut Output, c: OnLedger, line: &[u8], ledger: Ledger) -> Ledger {
    match c {
        OnLedger::Fresh => hosting::fresh(out),
        OnLedger::Take => hosting::take(out, line, ledger),
    }
}
