//! Lines of a proof in lent tables: each is found by its number through buckets.
#![tactic(auto)]

pub mod addition;
pub mod entry;
mod heads;
pub mod lines;
pub mod range;
