// The C interface on the journal, the swipe and the host's ledger: each function calls the library's call and hands numbers over.
#![tactic(auto)]

mod hosts;
mod journals;
mod swipes;
mod walks;

pub use hosts::ledger_take;
pub use journals::{journal_book, journal_release, journal_show, journal_survey, journal_tell};
pub use swipes::swipe;
pub use walks::{journal_walk, walk_start, walk_step};
