// Check pairs modulo 97 (ISO 7064, MOD 97-10): what creditor references and IBANs share.
#![tactic(auto)]

pub mod inner;
