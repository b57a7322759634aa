//! Formulas in conjunctive normal form, read from DIMACS text into lent tables.
#![tactic(auto)]

mod clause;
mod clauses;
pub mod formula;
mod header;
mod lines;
pub mod span;
mod survey;
pub mod variable;
