// Luhn: luhn_test, luhn_make.
ghost use Rattle.c_numbers.specs.Calls.{LuhnTests, LuhnMakes};

pub fn luhn_test(text: &[u8]) -> u32
    ensures { LuhnTests text.now result }
{
    reasons::tested_number(luhn::test(text))
}

pub fn luhn_make(body: &[u8], digit: &mut u8) -> u32
    ensures { LuhnMakes body.now digit.old result digit.new }
{
    hands::hand(luhn::make(body), digit)
}
