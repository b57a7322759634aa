//! Why a call refuses: the number, and the solver, place and hint that it speaks of.
#![tactic(auto)]

pub mod fault;
pub mod refusal;
