// The C interface on Luhn, card numbers and check pairs: each function calls the library's call and hands numbers over.
#![tactic(auto)]

mod accounts;
mod cards;
mod digits;

pub use accounts::{creditor_make, creditor_test, iban_make, iban_test};
pub use cards::{hot_find, pan_mask, range_find};
pub use digits::{luhn_make, luhn_test};
