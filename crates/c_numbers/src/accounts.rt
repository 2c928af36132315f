// Check pairs modulo 97: iban_test, iban_make, creditor_test, creditor_make.
ghost use Rattle.c_numbers.specs.Calls.{IbanTests, IbanMakes, CreditorTests, CreditorMakes};

pub fn iban_test(text: &[u8]) -> u32
    ensures { IbanTests text.now result }
{
    reasons::tested_number(iban::test(text))
}

pub fn iban_make(country: &[u8], body: &[u8], pair: &mut u32) -> u32
    ensures { IbanMakes country.now body.now pair.old result pair.new }
{
    hands::hand(iban::make(country, body), pair)
}

pub fn creditor_test(text: &[u8]) -> u32
    ensures { CreditorTests text.now result }
{
    reasons::tested_number(creditor::test(text))
}

pub fn creditor_make(body: &[u8], pair: &mut u32) -> u32
    ensures { CreditorMakes body.now pair.old result pair.new }
{
    hands::hand(creditor::make(body), pair)
}
