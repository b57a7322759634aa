//! Sources of all kinds side by side: the solvers of one join may bring different ones.
#![tactic(auto)]

pub mod any;
pub mod kind;
pub mod solvers;
