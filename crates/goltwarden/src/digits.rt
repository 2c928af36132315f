// Luhn: gw_luhn_test, gw_luhn_make.
ghost use Rattle.c_numbers.specs.Calls.{LuhnTests, LuhnMakes};

#[unsafe(no_mangle)]
pub extern "C" fn gw_luhn_test(text: &[u8]) -> u32
    ensures { LuhnTests text.now result }
{
    c_numbers::luhn_test(text)
}

#[unsafe(no_mangle)]
pub extern "C" fn gw_luhn_make(body: &[u8], digit: &mut u8) -> u32
    ensures { LuhnMakes body.now digit.old result digit.new }
{
    c_numbers::luhn_make(body, digit)
}
