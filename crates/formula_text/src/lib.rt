//! Formulas in words: what was read, for a person to see.
#![tactic(auto)]

pub mod describe;
