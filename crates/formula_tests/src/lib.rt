//! Tests of the formula reader, case by case, and of the refusal numbers.
#![tactic(auto)]

#[cfg(test)]
mod bounds;
#[cfg(test)]
mod cases;
#[cfg(test)]
mod clauses;
#[cfg(test)]
mod contents;
#[cfg(test)]
mod headers;
#[cfg(test)]
mod numbers;
#[cfg(test)]
mod orders;
#[cfg(test)]
mod space;
