// A slot's fields and tests, what they say, and what the slots come to. For the crates above: all of it is inner.
ghost use Rattle.std.specs.Prelude.{◌≡◌, true, false, MatchResult, ◌+◌, ◌*◌, ◌≤◌, ◌<◌, length};
ghost use Rattle.slots.specs.Journal.{slots_of, sized};
ghost use Rattle.remains.specs.Slot.{fields_of, tests_of, passes, told_of, told_at};
ghost use Rattle.remains.specs.Count.{counted, count_of};

use crate::{Counts, Fields, Slot, Tests};
use reasons::Reason;

// ---- one slot

fn fields_of(r: &[u8]) -> Fields
    requires { length r.now ≡ 32 }
    ensures { result ≡ fields_of r.now }
{
    Fields {
        serial: text::u32_at(r, 0),
        clock: text::u32_at(r, 4),
        amount: text::u32_at(r, 8),
        label: text::u16_at(r, 12),
        length: r[14],
        state: r[15],
    }
}

fn tests_of(r: &[u8], n: usize, k: usize) -> Tests
    requires { (length r.now ≡ 32) × (1 ≤ n) × (n ≤ 2048) × (k < n) }
    ensures { result ≡ tests_of n k r.now }
{
    let serial = text::u32_at(r, 0);
    let state = r[15];
    let end = 16 + slots::kept(state);
    Tests {
        serial: 0 < serial,
        slot: slots::place_of(n, serial) == 32 * k,
        state: slots::is_record(state),
        amount: 0 < text::u32_at(r, 8),
        length: slots::length_fits(state, r[14]),
        digits: text::all_digits(&r[16..end]),
        zeros: slots::zeros(r, end, 32),
    }
}

fn passes(t: Tests) -> bool
    ensures { result ≡ passes t }
{
    t.serial & (t.slot & (t.state & (t.amount & (t.length & (t.digits & t.zeros)))))
}

// What the bytes r say in slot k of n.
fn told_of(r: &[u8], n: usize, k: usize) -> Slot
    requires { (length r.now ≡ 32) × (1 ≤ n) × (n ≤ 2048) × (k < n) }
    ensures { result ≡ told_of n k r.now }
{
    if slots::zeros(r, 0, 32) {
        return Slot::Free;
    }
    let f = fields_of(r);
    let t = tests_of(r, n, k);
    if !passes(t) {
        return Slot::Damaged(f, t);
    }
    if slots::is_held(r[15]) {
        return Slot::Held(f);
    }
    Slot::Released(f)
}

// ---- what the slots come to

// With the slot s counted in.
fn with_slot(c: Counts, s: Slot) -> Counts
    requires few { (c.held < 2048) × (c.released < 2048) × (c.damaged < 2048) }
    requires small { c.sum ≤ 4294967295 * c.held }
    ensures says { result ≡ counted c s }
    ensures more { (result.held ≤ c.held + 1) × (result.released ≤ c.released + 1) × (result.damaged ≤ c.damaged + 1) }
    ensures small { result.sum ≤ 4294967295 * result.held }
{
    match s {
        Slot::Free => c,
        Slot::Held(f) => Counts {
            held: c.held + 1,
            sum: c.sum + u64::from(f.amount),
            ..c
        },
        Slot::Released(_) => Counts {
            released: c.released + 1,
            ..c
        },
        Slot::Damaged(_, _) => Counts {
            damaged: c.damaged + 1,
            ..c
        },
    }
}

// ---- the slots of a journal

// Any bytes of a journal's length.
#[derive(Clone, Copy)]
pub struct Slots<'a> {
    pub bytes: &'a [u8],
    pub ghost sized: { sized (length bytes.now) ≡ true },
}

impl<'a> Slots<'a> {
    pub fn of(j: &'a [u8]) -> Result<Slots<'a>, Reason>
        ensures { MatchResult result (λ s. (sized (length j.now) ≡ true) × (s.bytes.now ≡ j.now))
            (λ why. (sized (length j.now) ≡ false) × (why ≡ Reason.BadJournal)) }
    {
        if !slots::is_sized(j.len()) {
            return Err(Reason::BadJournal);
        }
        Ok(Slots { bytes: j })
    }

    // How many there are.
    pub fn count(self) -> usize
        ensures { result ≡ slots_of self.entry.bytes.now }
    {
        self.bytes.len() / 32
    }

    // What slot k says.
    pub fn at(self, k: usize) -> Slot
        requires { k < slots_of self.bytes.now }
        ensures { result ≡ told_at self.entry.bytes.now k }
    {
        let at = 32 * k;
        let end = at + 32;
        told_of(&self.bytes[at..end], self.count(), k)
    }

    // What they come to.
    pub fn counts(self) -> Counts
        ensures { result ≡ count_of (told_at self.entry.bytes.now) (slots_of self.entry.bytes.now) }
    {
        let mut c = Counts::default();
        for k in 0..self.count() {
            c = with_slot(c, self.at(k));
        }
        c
    }
}
