// The votes for the newest serial, the oldest held one, and the verdict on a slot.
ghost use Rattle.std.specs.Prelude.{◌≡◌, true, cond, ℕ, ◌≤◌, ◌<◌, length, get_or};
ghost use Rattle.salvage.specs.Whole.{serial_in, held_in, agrees, votes, poll_of, preferred, leader, Serials, newest_of, lower, oldest_of};
ghost use Rattle.salvage.specs.Whole.{due, free_verdict, held_verdict, released_verdict, verdict_of};

use crate::Verdict;
use remains::Slot;
use remains::inner::Slots;

// ---- the newest serial

fn serial_in(s: Slot) -> u32
    ensures { result ≡ serial_in s }
{
    match s {
        Slot::Held(f) | Slot::Released(f) => f.serial,
        Slot::Free | Slot::Damaged(_, _) => 0,
    }
}

fn held_in(s: Slot) -> u32
    ensures { result ≡ held_in s }
{
    match s {
        Slot::Held(f) => f.serial,
        Slot::Free | Slot::Released(_) | Slot::Damaged(_, _) => 0,
    }
}

// The serial of the whole record in each slot, 0 for none, so that a vote looks at a number and not at a slot.
fn serials(slots: Slots) -> [u32; 2048]
    ensures long { length result ≡ 2048 }
    ensures each { Serials slots.entry.bytes.now result }
{
    let mut all = [0u32; 2048];
    for k in 0..slots.count() {
        all[k] = serial_in(slots.at(k));
    }
    all
}

// Whether a journal of n slots whose newest serial is b keeps serial s.
fn agrees(n: usize, b: u32, s: u32) -> bool
    ensures { result ≡ agrees n b s }
{
    if s <= slots::floor_of(n, b) {
        return false;
    }
    s <= b
}

// How many slots agree that b is the newest.
fn votes(serials: &[u32], b: u32) -> usize
    ensures { result ≡ votes (λ (k : ℕ). get_or serials.now k 0) (length serials.now) b (length serials.now) }
{
    let n = serials.len();
    let mut count = 0;
    for &s in serials {
        if agrees(n, b, s) {
            count += 1;
        }
    }
    count
}

// A serial, and how many slots agree with it.
#[derive(Clone, Copy)]
struct Poll {
    serial: u32,
    votes: usize,
}

fn poll_of(serials: &[u32], b: u32) -> Poll
    ensures { result ≡ poll_of (λ (k : ℕ). get_or serials.now k 0) (length serials.now) b }
{
    Poll {
        serial: b,
        votes: votes(serials, b),
    }
}

// The one that more slots agree with, of equals the higher serial.
fn preferred(a: Poll, c: Poll) -> Poll
    ensures { result ≡ preferred a c }
{
    if a.votes < c.votes {
        return c;
    }
    if c.votes < a.votes {
        return a;
    }
    if a.serial < c.serial {
        return c;
    }
    a
}

// The serial that most slots agree with.
fn leader(serials: &[u32]) -> u32
    ensures { result ≡ (leader (λ (k : ℕ). get_or serials.now k 0) (length serials.now) (length serials.now)).serial }
{
    let mut best = poll_of(serials, 0);
    for &s in serials {
        best = preferred(best, poll_of(serials, s));
    }
    best.serial
}

// The newest serial of a journal.
pub fn newest(slots: Slots) -> u32
    ensures { result ≡ newest_of slots.entry.bytes.now }
{
    let all = serials(slots);
    leader(&all[..slots.count()])
}

// ---- the oldest held serial

// The lower of two serials; 0 is none.
fn lower(a: u32, c: u32) -> u32
    ensures { result ≡ lower a c }
{
    if c == 0 {
        return a;
    }
    if a == 0 {
        return c;
    }
    if c < a {
        return c;
    }
    a
}

// The serial s where a journal of n slots whose newest serial is b keeps it, else 0.
fn kept_serial(n: usize, b: u32, s: u32) -> u32
    ensures { result ≡ cond (agrees n b s) s 0 }
{
    if agrees(n, b, s) {
        return s;
    }
    0
}

// The oldest held serial that agrees with the newest, b.
pub fn oldest(slots: Slots, b: u32) -> u32
    ensures { result ≡ oldest_of slots.entry.bytes.now b }
{
    let n = slots.count();
    let mut low = 0;
    for k in 0..n {
        let held = held_in(slots.at(k));
        low = lower(low, kept_serial(n, b, held));
    }
    low
}

// ---- the verdict

// The serial that belongs in slot k of n where b is the newest, 0 for none.
pub fn due(n: usize, b: u32, k: usize) -> u32
    requires { (1 ≤ n) × (n ≤ 2048) × (k < n) }
    ensures { result ≡ due n b k }
{
    let top = b as usize;
    if top <= k {
        return 0;
    }
    (top - (top - 1 - k) % n) as u32
}

// What is wrong with a released record of serial s where d is due and h is the oldest held serial.
fn released_verdict(s: u32, d: u32, h: u32) -> Verdict
    ensures { result ≡ released_verdict s d h }
{
    if s != d {
        return Verdict::Disagrees(s);
    }
    if h == 0 {
        return Verdict::Fine;
    }
    if h < d {
        return Verdict::Above(d, h);
    }
    Verdict::Fine
}

fn held_verdict(s: u32, d: u32) -> Verdict
    ensures { result ≡ held_verdict s d }
{
    if s != d {
        return Verdict::Disagrees(s);
    }
    Verdict::Fine
}

fn free_verdict(d: u32) -> Verdict
    ensures { result ≡ free_verdict d }
{
    if d == 0 {
        return Verdict::Fine;
    }
    Verdict::Missing(d)
}

// What is wrong with a slot in which serial d is due, h being the oldest held serial.
pub fn verdict_of(s: Slot, d: u32, h: u32) -> Verdict
    ensures { result ≡ verdict_of s d h }
{
    match s {
        Slot::Free => free_verdict(d),
        Slot::Held(f) => held_verdict(f.serial, d),
        Slot::Released(f) => released_verdict(f.serial, d, h),
        Slot::Damaged(_, _) => Verdict::Damaged(d),
    }
}
