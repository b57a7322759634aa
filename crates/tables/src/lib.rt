//! Tables over lent memory.
#![tactic(auto)]

pub mod fill;
