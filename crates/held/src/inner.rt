// The held records of a journal whose view is already made: for the calls of this crate, for release and for the walker.
ghost use Rattle.std.specs.Prelude.{◌≡◌, cond, List, ◌∷◌, ℕ, ◌+◌, ◌*◌, ◌-◌, ◌≤◌, ◌<◌, length, take, drop, Some};
ghost use Rattle.text.specs.Bytes.{within};
ghost use Rattle.slots.specs.Record.{is_held, state_at};
ghost use Rattle.slots.specs.Journal.{slots_of, Formed};
ghost use Rattle.held.specs.Held.{held_after, Tallies};
ghost use Rattle.held.specs.Rules.{tell_rule, show_rule};
ghost use Rattle.reasons.specs.Reasons.{gives, said};

use crate::{Tallied, Told};
use reasons::Reason;

// ---- the held records

// What t's records come to with the one at `at` put before them, if that is held.
fn with_record(t: Tallied, j: &[u8], at: usize) -> Tallied
    requires { (at + 32 ≤ length j.now) × (t.count < 4096) × (t.sum ≤ 4294967295 * t.count) }
    ensures { (result.count ≤ t.count + 1) × (result.sum ≤ 4294967295 * result.count)
        × ((rs : List (List ℕ)) → Tallies t rs → Tallies result (cond (is_held (state_at j.now at)) (take 32 (drop at j.now) ∷ rs) rs)) }
{
    if slots::is_held(j[at + 15]) {
        let amount = text::u32_at(j, at + 8);
        let serial = text::u32_at(j, at);
        return Tallied {
            count: t.count + 1,
            sum: t.sum + amount as u64,
            first: serial,
        };
    }
    t
}

// What the held records of the serials after low up to top come to.
pub fn tally(j: &[u8], n: usize, low: u32, top: u32) -> Tallied
    requires { (1 ≤ n) × (n ≤ 2048) × (length j.now ≡ 32 * n) × (low ≤ top) × (top ≤ low + n) }
    ensures { Tallies result (held_after j.now n low (top - low)) }
{
    let mut t = Tallied {
        count: 0,
        sum: 0,
        first: 0,
    };
    let mut at = slots::place_of(n, top);
    for _s in (low..top).rev() {
        t = with_record(t, j, at);
        at = slots::back(n, at);
    }
    t
}

// Whether s is one of the serials after low up to b.
pub fn is_after(low: u32, b: u32, s: u32) -> bool
    ensures { result ≡ within (low + 1) b s }
{
    low < s && s <= b
}

// ---- tell

// Tells of a journal with newest serial b.
pub fn tell_at(j: &[u8], b: u32) -> Told
    requires { Formed j.now (slots_of j.now) b }
    ensures { gives result ≡ tell_rule (Some b) j.now }
{
    let n = j.len() / 32;
    let low = slots::floor_of(n, b);
    let t = tally(j, n, low, b);
    Told {
        count: t.count,
        sum: t.sum,
        oldest: t.first,
        newest: b,
    }
}

// ---- show

// Where the held record of serial s begins in a journal with newest serial b.
pub fn find_at(j: &[u8], b: u32, s: u32) -> Result<usize, Reason>
    requires { Formed j.now (slots_of j.now) b }
    ensures { said result ≡ show_rule (Some b) j.now s }
{
    let n = j.len() / 32;
    let low = slots::floor_of(n, b);
    if !is_after(low, b, s) {
        return Err(Reason::NoSerial);
    }
    let at = slots::place_of(n, s);
    if slots::is_held(j[at + 15]) {
        return Ok(at);
    }
    Err(Reason::NoSerial)
}
