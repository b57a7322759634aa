//! Sources: what a partial proof is to whoever draws from it, whatever bytes lie under it.
#![tactic(auto)]

pub mod body;
pub mod head;
pub mod marked;
pub mod source;
