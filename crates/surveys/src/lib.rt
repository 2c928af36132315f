// The survey, for the technician who meets 16: what each slot of a journal says of itself.
#![tactic(auto)]

ghost use Rattle.std.specs.Prelude.{◌≡◌, ◌+◌, ◌*◌, ◌≤◌, ◌<◌, length};
ghost use Rattle.slots.specs.Journal.{slots_of, Formed};
ghost use Rattle.surveys.specs.Survey.{SlotIs, SlotsIn, SurveysAs, Surveys};

use reasons::Reason;

// What slot k says of itself. It divides by the number of slots, since a damaged record's serial may be any.
fn slot_state(j: &[u8], n: usize, k: usize) -> u8
    requires { (n ≡ slots_of j.now) × (n ≤ 2048) × (k < n) × (length j.now ≡ 32 * n) }
    ensures { SlotIs j.now k result }
{
    let at = 32 * k;
    if slots::zeros(j, at, at + 32) {
        return 0;
    }
    let s = text::u32_at(j, at);
    if s == 0 {
        return 3;
    }
    if slots::place_of(n, s) != at {
        return 3;
    }
    if !slots::good(j, at, s) {
        return 3;
    }
    if slots::is_held(j[at + 15]) {
        return 1;
    }
    2
}

// Writes what each slot says of itself.
fn fill(j: &[u8], n: usize, out: &mut [u8])
    requires { (n ≡ slots_of j.now) × (n ≤ 2048) × (n ≤ length out.old) × (length j.now ≡ 32 * n) }
    ensures { SlotsIn j.now out.old out.new }
{
    for k in 0..n {
        out[k] = slot_state(j, n, k);
    }
}

// Surveys a journal that is well formed or not, as said.
fn survey_as(j: &[u8], out: &mut [u8], well: bool) -> Result<bool, Reason>
    ensures { SurveysAs j.now out.old well result out.new }
{
    if !slots::is_sized(j.len()) {
        return Err(Reason::BadJournal);
    }
    let n = j.len() / 32;
    if out.len() < n {
        return Err(Reason::ShortOutput);
    }
    fill(j, n, out);
    Ok(well)
}

// Writes one byte a slot into out, 0 free, 1 held, 2 released, 3 damaged, and answers whether the journal is well formed.
#[tactic(auto, using(crate::proofs::Surveys::formed_is))]
pub fn survey(j: &[u8], out: &mut [u8]) -> Result<bool, Reason>
    ensures { Surveys j.now out.old result out.new }
{
    let well = slots::newest_of(j).is_some();
    survey_as(j, out, well)
}
