//! Lines, tokens and decimal numbers of a byte slice: one scanner for every text format.
#![tactic(auto)]

pub mod scan;
pub mod scanner;
