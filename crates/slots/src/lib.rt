// A record's 32 bytes, when a journal is well formed, and the one scan that gives the view of a journal. For the crates above: all of it is inner.
#![tactic(auto)]

ghost use Rattle.std.specs.Prelude.{◌≡◌, true, ℕ, ◌+◌, ◌*◌, ◌-◌, ◌≤◌, ◌<◌, ◌∷◌, ◌++◌, length, replicate};
ghost use Rattle.text.specs.Numbers.{u32_at, le16, le32, put};
ghost use Rattle.slots.specs.Record.{is_held, is_released, is_record, held_state, freed_state, length_fits, kept, Zeros, Digits, Good, record32};
ghost use Rattle.slots.specs.Journal.{Tells, sized, place, Stands, Ordered, NewestIs};
ghost use Rattle.slots.specs.Writes.{wrote, record_writes};

// ---- what a state byte says

pub fn is_held(x: u8) -> bool
    ensures { result ≡ is_held x }
{
    x == 1
}

fn is_released(x: u8) -> bool
    ensures { result ≡ is_released x }
{
    x == 2
}

// The state of a record that was held with state x and is released.
pub fn freed(x: u8) -> u8
    requires { is_held x ≡ true }
    ensures { result ≡ freed_state x }
{
    x + 1
}

// Whether a record stands there.
pub fn is_record(x: u8) -> bool
    ensures { result ≡ is_record x }
{
    is_held(x) || is_released(x)
}

// Whether a record of state x may have a PAN of n digits.
#[tactic(auto, unfolding(crate::specs::Record::length_fits))]
pub fn length_fits(x: u8, n: u8) -> bool
    ensures { result ≡ length_fits x n }
{
    (13..=19).contains(&n)
}

// How many digits a record of state x keeps.
pub fn kept(x: u8) -> usize
    ensures { (result ≡ kept x) × (result ≤ 16) }
{
    10
}

// ---- a record

// A record with the number x in the four bytes from `at`.
fn with_number(r: [u8; 32], at: usize, x: u32) -> [u8; 32]
    requires { at ≤ 28 }
    ensures { result ≡ put r at (le32 x) }
{
    let bytes = text::le32_of(x);
    let mut q = r;
    text::put_at(&mut q, at, &bytes);
    q
}

// The fields of a record that is booked, held, of a PAN of n digits, over zeros in place of the digits.
fn fields_of(serial: u32, clock: u32, amount: u32, label: u16, n: u8) -> [u8; 32]
    ensures { result ≡ le32 serial ++ (le32 clock ++ (le32 amount ++ (le16 label ++ (n ∷ held_state n ∷ replicate 16 0)))) }
{
    let s = with_number([0u8; 32], 0, serial);
    let c = with_number(s, 4, clock);
    let mut r = with_number(c, 8, amount);
    let l = text::le16_of(label);
    r[12] = l[0];
    r[13] = l[1];
    r[14] = n;
    r[15] = 1;
    r
}

// The 32 bytes of a record that is booked: held.
pub fn record_of(serial: u32, clock: u32, amount: u32, label: u16, pan: &[u8]) -> [u8; 32]
    requires { (13 ≤ length pan.now) × (length pan.now ≤ 19) }
    ensures { result ≡ record32 serial clock amount label pan.now }
{
    let n = pan.len();
    let mut r = fields_of(serial, clock, amount, label, n as u8);
    text::put_at(&mut r, 16, &pan[..6]);
    text::put_at(&mut r, 22, &pan[n - 4..]);
    r
}

// Writes a record into the slot at `at`, its state byte last: the order in which memory that outlives the power is to be written.
pub fn write_record(j: &mut [u8], at: usize, r: &[u8; 32])
    requires { at + 32 ≤ length j.old }
    ensures { j.new ≡ wrote j.old (record_writes r.now at) }
{
    for k in 0..32 {
        let i = (k + 16) % 32;
        j[at + i] = r[i];
    }
}

// Whether the bytes from..to are all 0: four at a look, then the rest.
pub fn zeros(j: &[u8], from: usize, to: usize) -> bool
    requires { (from ≤ to) × (to ≤ length j.now) }
    ensures { Tells result (Zeros j.now from to) }
{
    let mut i = from;
    while 4 <= to - i {
        if text::u32_at(j, i) != 0 {
            return false;
        }
        i += 4;
    }
    for k in i..to {
        if j[k] != 0 {
            return false;
        }
    }
    true
}

// Whether the bytes from..to are all digits.
fn digits(j: &[u8], from: usize, to: usize) -> bool
    requires { (from ≤ to) × (to ≤ length j.now) }
    ensures { Tells result (Digits j.now from to) }
{
    for i in from..to {
        if !text::is_digit(j[i]) {
            return false;
        }
    }
    true
}

// Whether the 32 bytes from `at` are a good record of serial s.
pub fn good(j: &[u8], at: usize, s: u32) -> bool
    requires { at + 32 ≤ length j.now }
    ensures { Tells result (Good j.now at s) }
{
    if text::u32_at(j, at) != s {
        return false;
    }
    if text::u32_at(j, at + 8) == 0 {
        return false;
    }
    let state = j[at + 15];
    if !is_record(state) {
        return false;
    }
    if !length_fits(state, j[at + 14]) {
        return false;
    }
    let end = at + 16 + kept(state);
    if !digits(j, at + 16, end) {
        return false;
    }
    zeros(j, end, at + 32)
}

// ---- the ring of slots

// Where the record of serial s begins. It divides by the number of slots; walks go by `back` and `onward`, which don't.
pub fn place_of(n: usize, s: u32) -> usize
    requires { (1 ≤ n) × (n ≤ 2048) }
    ensures { (result ≡ place n s) × (result + 32 ≤ 32 * n) }
{
    32 * (s.saturating_sub(1) as usize % n)
}

// The place before `at`, round the ring of n slots.
pub fn back(n: usize, at: usize) -> usize
    requires { (1 ≤ n) × (n ≤ 2048) × (at + 32 ≤ 32 * n) }
    ensures { (result + 32 ≤ 32 * n) × ((s : ℕ) → 2 ≤ s → at ≡ place n s → result ≡ place n (s - 1)) }
{
    if at < 32 {
        return 32 * n - 32;
    }
    at - 32
}

// The place after `at`, round the ring of n slots.
pub fn onward(n: usize, at: usize) -> usize
    requires { (1 ≤ n) × (n ≤ 2048) × (at + 32 ≤ 32 * n) }
    ensures { (result + 32 ≤ 32 * n) × ((s : ℕ) → 1 ≤ s → at ≡ place n s → result ≡ place n (s + 1)) }
{
    if 32 * n < at + 64 {
        return 0;
    }
    at + 32
}

// The serial before the oldest that n slots keep, b being the newest.
pub fn floor_of(n: usize, b: u32) -> u32
    ensures { result ≡ b - n }
{
    (b as usize).saturating_sub(n) as u32
}

// The higher of two serials.
pub fn higher(a: u32, b: u32) -> u32
    ensures { (a ≤ result) × (b ≤ result) × (result - a ≡ b - a) }
{
    if a < b {
        return b;
    }
    a
}

// ---- the scan

// Whether a length is that of 1 to 2,048 whole slots.
#[tactic(auto, unfolding(crate::specs::Journal::sized))]
pub fn is_sized(len: usize) -> bool
    ensures { result ≡ sized len }
{
    len % 32 == 0 && (1..=2048).contains(&(len / 32))
}

// The highest serial of the first n slots.
fn highest(j: &[u8], n: usize) -> u32
    requires { 32 * n ≤ length j.now }
    ensures above { (k : ℕ) → k < n → u32_at j.now (32 * k) ≤ result }
    ensures least { (m : ℕ) → ((k : ℕ) → k < n → u32_at j.now (32 * k) ≤ m) → result ≤ m }
{
    let mut top: u32 = 0;
    for k in 0..n {
        top = higher(top, text::u32_at(j, 32 * k));
    }
    top
}

// Whether each kept serial stands in its slot and no released record has a higher serial than a held one, from serial b down.
fn stands(j: &[u8], n: usize, b: u32) -> bool
    requires { (1 ≤ n) × (n ≤ 2048) × (length j.now ≡ 32 * n) }
    ensures { Tells result (Stands j.now n b × Ordered j.now n b) }
{
    let low = floor_of(n, b);
    let mut at = place_of(n, b);
    let mut gone = false;
    for k in (low..b).rev() {
        let s = k + 1;
        if !good(j, at, s) {
            return false;
        }
        let held = is_held(j[at + 15]);
        if held && gone {
            return false;
        }
        gone = !held;
        at = back(n, at);
    }
    true
}

// Whether the slots after the first b are all zero.
fn rest_zero(j: &[u8], n: usize, b: u32) -> bool
    requires { (1 ≤ n) × (n ≤ 2048) × (length j.now ≡ 32 * n) }
    ensures { Tells result (Zeros j.now (32 * b) (length j.now)) }
{
    let x = b as usize;
    if n <= x {
        return true;
    }
    zeros(j, 32 * x, j.len())
}

// The view of a journal: its newest serial, 0 for none; `None` where it is not well formed. The newest serial can only be the highest in any slot.
pub fn newest_of(j: &[u8]) -> Option<u32>
    ensures { NewestIs j.now result }
{
    if !is_sized(j.len()) {
        return None;
    }
    let n = j.len() / 32;
    let b = highest(j, n);
    if !stands(j, n, b) {
        return None;
    }
    if !rest_zero(j, n, b) {
        return None;
    }
    Some(b)
}
