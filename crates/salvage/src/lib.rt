// Why a damaged journal as a whole isn't well formed: the newest serial that most records agree with, and what each slot has to do with it.
#![tactic(auto)]

use reasons::Reason;
use remains::inner::Slots;

mod inner;

ghost use Rattle.std.specs.Prelude.{◌≡◌};
ghost use Rattle.reasons.specs.Reasons.{said};
ghost use Rattle.salvage.specs.Whole.{agree_rule, judge_rule};

// The newest serial, and the oldest held one that agrees with it; 0 for none.
#[derive(Clone, Copy)]
pub struct Agreed {
    pub newest: u32,
    pub oldest: u32,
}

// What is wrong with a slot as a part of the whole: the serial that is missing; the serial that belongs in a damaged slot, 0 for none; the serial
// of a record that doesn't agree about the newest; the serial of a released record, and that of a held one below it.
#[derive(Clone, Copy)]
pub enum Verdict {
    Fine,
    Missing(u32),
    Damaged(u32),
    Disagrees(u32),
    Above(u32, u32),
}

// The newest serial that most whole records agree with, of equals the higher, and the oldest held one that agrees with it.
pub fn agree(j: &[u8]) -> Result<Agreed, Reason>
    ensures { said result ≡ agree_rule j.now }
{
    let slots = Slots::of(j)?;
    let newest = inner::newest(slots);
    let oldest = inner::oldest(slots, newest);
    Ok(Agreed { newest, oldest })
}

// What is wrong with slot k, newest being the newest serial and oldest the oldest held one.
pub fn judge(j: &[u8], k: usize, newest: u32, oldest: u32) -> Result<Verdict, Reason>
    ensures { said result ≡ judge_rule j.now k newest oldest }
{
    let slot = remains::look(j, k)?;
    let d = inner::due(j.len() / 32, newest, k);
    Ok(inner::verdict_of(slot, d, oldest))
}
