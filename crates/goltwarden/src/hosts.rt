// The host's ledger: gw_ledger_take.
ghost use Rattle.c_box.specs.Calls.{LedgerTakes};

#[unsafe(no_mangle)]
pub extern "C" fn gw_ledger_take(message: &[u8], taken: &mut u32, total: &mut u64) -> u32
    ensures { LedgerTakes message.now (taken.old, total.old) result (taken.new, total.new) }
{
    c_box::ledger_take(message, taken, total)
}
