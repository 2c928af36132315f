// The commands on texts, tables and dates.
#![tactic(auto)]

pub mod calendar;
pub mod tables;
pub mod texts;
