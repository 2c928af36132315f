// Card numbers: gw_pan_mask, gw_range_find, gw_hot_find.
ghost use Rattle.c_numbers.specs.Calls.{PanMasks, RangeFinds, HotFinds};

#[unsafe(no_mangle)]
pub extern "C" fn gw_pan_mask(pan: &[u8], out: &mut [u8]) -> u32
    ensures { PanMasks pan.now out.old result out.new }
{
    c_numbers::pan_mask(pan, out)
}

#[unsafe(no_mangle)]
pub extern "C" fn gw_range_find(
    site: &[u8],
    acquirer: &[u8],
    pan: &[u8],
    table: &mut u32,
    at: &mut u32,
) -> u32
    ensures { RangeFinds site.now acquirer.now pan.now
        (table.old, at.old) result (table.new, at.new) }
{
    c_numbers::range_find(site, acquirer, pan, table, at)
}

#[unsafe(no_mangle)]
pub extern "C" fn gw_hot_find(list: &[u64], digits: u32, pan: &[u8], listed: &mut u32) -> u32
    ensures { HotFinds list.now digits pan.now listed.old result listed.new }
{
    c_numbers::hot_find(list, digits, pan, listed)
}
