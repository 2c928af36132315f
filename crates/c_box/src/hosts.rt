ghost use Rattle.c_box.specs.Calls.{LedgerTakes};

use ledger::Ledger;

// A message to the host's ledger, whose two numbers stand behind the pointers.
pub fn ledger_take(message: &[u8], taken: &mut u32, total: &mut u64) -> u32
    ensures { LedgerTakes message.now (taken.old, total.old) result (taken.new, total.new) }
{
    let before = Ledger {
        taken: *taken,
        total: *total,
    };
    match ledger::take(before, message) {
        Ok(after) => {
            *taken = after.taken;
            *total = after.total;
            0
        }
        Err(why) => reasons::number(why),
    }
}
