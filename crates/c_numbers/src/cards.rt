// Card numbers: pan_mask, range_find, hot_find.
ghost use Rattle.c_numbers.specs.Calls.{PanMasks, RangeFinds, HotFinds};

use ranges::Place;

pub fn pan_mask(pan: &[u8], out: &mut [u8]) -> u32
    ensures { PanMasks pan.now out.old result out.new }
{
    reasons::tested_number(pan::mask(pan, out))
}

pub fn range_find(site: &[u8], acquirer: &[u8], pan: &[u8], table: &mut u32, at: &mut u32) -> u32
    ensures { RangeFinds site.now acquirer.now pan.now
        (table.old, at.old) result (table.new, at.new) }
{
    match ranges::find(site, acquirer, pan) {
        Ok(Place::Site(a)) => {
            *table = 0;
            *at = a as u32;
            0
        }
        Ok(Place::Acquirer(a)) => {
            *table = 1;
            *at = a as u32;
            0
        }
        Err(why) => reasons::number(why),
    }
}

pub fn hot_find(list: &[u64], digits: u32, pan: &[u8], listed: &mut u32) -> u32
    ensures { HotFinds list.now digits pan.now listed.old result listed.new }
{
    match hotlist::find(list, digits, pan) {
        Ok(yes) => {
            *listed = u32::from(yes);
            0
        }
        Err(why) => reasons::number(why),
    }
}
