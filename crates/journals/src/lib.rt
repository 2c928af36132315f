// The commands that look at the slots of a journal, and those that fill one in memory.
#![tactic(auto)]

pub mod memory;
pub mod survey;
