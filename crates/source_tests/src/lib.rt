//! Tests of the sources: whole readings, case by case, and single looks and steps.
#![tactic(auto)]

#[cfg(test)]
mod bytes;
#[cfg(test)]
mod cursors;
#[cfg(test)]
mod cuts;
#[cfg(test)]
mod forms;
#[cfg(test)]
mod items;
#[cfg(test)]
mod listings;
#[cfg(test)]
mod long_lines;
#[cfg(test)]
mod long_records;
#[cfg(test)]
mod looks;
#[cfg(test)]
mod numbers;
#[cfg(test)]
mod record_faults;
#[cfg(test)]
mod record_items;
#[cfg(test)]
mod solvers;
