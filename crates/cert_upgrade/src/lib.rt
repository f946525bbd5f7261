//! Upgrades a certificate: the same one is written in version 2, with the longest runs.
//!
//! A certificate of version 1 lists state by state; one of version 2 lists runs of states that follow one another and
//! have one distance, and is a good deal shorter. [`upgrade`] reads a certificate of either version and writes what it
//! says to another file, or to the same. It needs no dictionaries: whatever the stack, the new certificate is valid
//! exactly where the old one is. Only the form is checked on the way, and what is refused for it is valid for no
//! stack.
//!
//! The old file is read to its end before the new one is begun. What is written of it is kept meanwhile: a line for
//! each run and each row.
#![tactic(auto)]

mod laws;
mod reading;
mod rows;
mod runs;
mod top;
mod upgrading;
mod upper;
mod writing;

pub use laws::upgraded_certificates;
pub use upgrading::{Upgraded, upgrade};

#[cfg(test)]
mod tests;
