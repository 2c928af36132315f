// Check pairs modulo 97: gw_iban_test, gw_iban_make, gw_creditor_test, gw_creditor_make.
ghost use Rattle.c_numbers.specs.Calls.{IbanTests, IbanMakes, CreditorTests, CreditorMakes};

#[unsafe(no_mangle)]
pub extern "C" fn gw_iban_test(text: &[u8]) -> u32
    ensures { IbanTests text.now result }
{
    c_numbers::iban_test(text)
}

#[unsafe(no_mangle)]
pub extern "C" fn gw_iban_make(country: &[u8], body: &[u8], pair: &mut u32) -> u32
    ensures { IbanMakes country.now body.now pair.old result pair.new }
{
    c_numbers::iban_make(country, body, pair)
}

#[unsafe(no_mangle)]
pub extern "C" fn gw_creditor_test(text: &[u8]) -> u32
    ensures { CreditorTests text.now result }
{
    c_numbers::creditor_test(text)
}

#[unsafe(no_mangle)]
pub extern "C" fn gw_creditor_make(body: &[u8], pair: &mut u32) -> u32
    ensures { CreditorMakes body.now pair.old result pair.new }
{
    c_numbers::creditor_make(body, pair)
}
