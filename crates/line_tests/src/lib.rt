//! Tests of lines and their check: verdicts, offers, and lines found by number.
#![tactic(auto)]

#[cfg(test)]
mod bytes;
#[cfg(test)]
mod jobs;
#[cfg(test)]
mod long_lines;
#[cfg(test)]
mod lookups;
#[cfg(test)]
mod offers;
#[cfg(test)]
mod verdicts;
