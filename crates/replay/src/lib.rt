// Replays a script of calls, one after another, and answers what they came to.
#![tactic(auto)]

ghost use Rattle.std.specs.Prelude.{◌≡◌, ℕ, Some};
ghost use Rattle.slots.specs.Journal.{NewestIs};
ghost use Rattle.payer.specs.Payer.{terms_of};
ghost use Rattle.plays.specs.Script.{script_rule};
ghost use Rattle.replay.specs.Replay.{Replays, Conserves};

use payer::Terms;
use plays::{Totals, Unplayed};

// Makes the calls of a script, one after another, on the lent terms, scratch and journal, and answers what they came to, or why no record was played.
pub fn replay(
    script: &[u8],
    terms: Terms,
    scratch: &mut [u8],
    journal: &mut [u8],
) -> Result<Totals, Unplayed>
    ensures replays { Replays script.now (terms_of terms.entry) scratch.old journal.old
        (script_rule script.now) result scratch.new journal.new }
    ensures by_index { (b : ℕ) → NewestIs journal.old (Some b) → Conserves b journal.old result journal.new }
{
    let records = plays::records_of(script)?;
    let mut totals = Totals::default();
    for r in records {
        totals = plays::add(totals, plays::play(r, terms, scratch, journal));
    }
    Ok(totals)
}
