//! The text format of a partial proof: its reading, and a source over the bytes of a text.
//!
//! A line is blank, an addition `NUMBER LITERALS 0 HINTS 0`, or a deletion `NUMBER d NUMBERS 0`.
//! Any other is misshapen (21) or beyond a count limit (25), and ends the reading.
#![tactic(auto)]

pub mod cursor;
mod kept;
mod parser;
