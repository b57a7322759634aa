//! Sources in words: every item still to come, and the ending.
#![tactic(auto)]

pub mod list;
