// For the crates above: the steps of a look-up, which take as tested what their caller has tested.
ghost use Rattle.std.specs.Prelude.{◌≡◌, true, ◌&&◌, ◌+◌, ◌≤◌, length};
ghost use Rattle.text.specs.Bytes.{all_digits};
ghost use Rattle.pan.specs.Pan.{pan_length};
ghost use Rattle.reasons.specs.Reasons.{said};
ghost use Rattle.ranges.specs.Ranges.{table_ok, low, high, prefix_of, fits, width, choice, place_rule, label_rule};

use super::Place;
use reasons::Reason;

// Whether a table's byte length is a multiple of 16 and at most 65,536.
#[tactic(auto, unfolding(crate::specs::Ranges::table_ok))]
fn table_ok(t: &[u8]) -> bool
    ensures { result ≡ table_ok t.now }
{
    t.len() % 16 == 0 && t.len() <= 65536
}

// Whether both tables pass.
pub fn tables_ok(site: &[u8], acquirer: &[u8]) -> bool
    ensures { result ≡ (table_ok site.now && table_ok acquirer.now) }
{
    table_ok(site) && table_ok(acquirer)
}

// The first eight digits of a PAN, as a number.
fn prefix_of(pan: &[u8]) -> u32
    requires { (8 ≤ length pan.now) × (all_digits pan.now ≡ true) }
    ensures { result ≡ prefix_of pan.now }
{
    text::decimal(&pan[..8]) as u32
}

// Whether the record at `at` fits a PAN of n digits whose first eight are p.
#[tactic(auto, unfolding(crate::specs::Ranges::fits))]
fn fits(t: &[u8], at: usize, p: u32, n: u8) -> bool
    requires { at + 16 ≤ length t.now }
    ensures { result ≡ fits t.now at p n }
{
    text::u32_at(t, at) <= p && p <= text::u32_at(t, at + 4) && t[at + 10] <= n && n <= t[at + 11]
}

// How wide the record at `at` is, whose ends are in order.
fn width_at(t: &[u8], at: usize) -> u32
    requires { (at + 16 ≤ length t.now) × (low t.now at ≤ high t.now at) }
    ensures { result ≡ width t.now at }
{
    text::u32_at(t, at + 4) - text::u32_at(t, at)
}

// The choice within a table for a PAN of n digits whose first eight are p, in one pass that keeps where the best so far begins and how
// wide it is. Before there is one the width is more than any, so that one comparison decides about a record that fits.
fn choose(t: &[u8], p: u32, n: u8) -> Option<usize>
    requires { table_ok t.now ≡ true }
    ensures { result ≡ choice t.now p n }
{
    let mut best = 0;
    let mut width: u64 = 4294967296;
    for k in 0..t.len() / 16 {
        let at = 16 * k;
        if fits(t, at, p, n) {
            let w = width_at(t, at) as u64;
            if w < width {
                best = at;
                width = w;
            }
        }
    }
    if width < 4294967296 { Some(best) } else { None }
}

// Where the record of a PAN stands, in tables that passed.
#[tactic(auto, unfolding(crate::specs::Ranges::place_rule))]
pub fn find_tested(site: &[u8], acquirer: &[u8], pan: &[u8]) -> Result<Place, Reason>
    requires { (table_ok site.now ≡ true) × (table_ok acquirer.now ≡ true) × (pan_length (length pan.now) ≡ true) × (all_digits pan.now ≡ true) }
    ensures { said result ≡ place_rule site.now acquirer.now pan.now }
{
    let p = prefix_of(pan);
    let n = pan.len() as u8;
    if let Some(at) = choose(site, p, n) {
        return Ok(Place::Site(at));
    }
    match choose(acquirer, p, n) {
        Some(at) => Ok(Place::Acquirer(at)),
        None => Err(Reason::NoRange),
    }
}

// The label of a PAN's record, in tables that passed.
#[tactic(auto, unfolding(crate::specs::Ranges::label_rule))]
pub fn label_tested(site: &[u8], acquirer: &[u8], pan: &[u8]) -> Result<u16, Reason>
    requires { (table_ok site.now ≡ true) × (table_ok acquirer.now ≡ true) × (pan_length (length pan.now) ≡ true) × (all_digits pan.now ≡ true) }
    ensures { said result ≡ label_rule site.now acquirer.now pan.now }
{
    match find_tested(site, acquirer, pan)? {
        Place::Site(at) => Ok(text::u16_at(site, at + 8)),
        Place::Acquirer(at) => Ok(text::u16_at(acquirer, at + 8)),
    }
}
