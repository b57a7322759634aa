//! Numbers as they are written into a text, with a space behind each.
#![tactic(auto)]

pub mod numbers;
