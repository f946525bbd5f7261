//! Checks a certificate: whoever wrote it, what is accepted proves an audit.
//!
//! A certificate lists states of the closure with distances, and rows of conflicts. [`check`] reads it once and makes
//! the checks of `certificate_laws` in their order, so the first that fails is told by its line and reason. It never
//! searches: of each listed state it asks whether its targets are listed near enough, and of each row whether its words
//! show its pair.
//!
//! The time follows the listed states and their targets, like that of one search; memory is eight bytes a number of a
//! state and eight an inner place of an entry.
#![tactic(auto)]

mod checking;
mod faults;
mod founds;
mod listing;
mod moves;
mod pairs;
mod places;
mod reading;
mod rows;
mod top;
mod upper;

pub use checking::check;
pub use faults::{CheckDone, CheckFault};
pub use reading::required_line;

#[cfg(test)]
mod tests;
