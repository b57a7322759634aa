//! A source over the bytes of a record file.
#![tactic(auto)]

pub mod cursor;
mod fields;
mod flaw;
mod found;
mod records;
