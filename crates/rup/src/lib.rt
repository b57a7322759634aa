//! Whether a line follows: unit propagation through its hints, on assignment bytes.
#![tactic(auto)]

pub mod assignment;
pub mod check;
pub mod failure;
mod guard;
mod hints;
mod literal;
pub mod offer;
mod propagation;
