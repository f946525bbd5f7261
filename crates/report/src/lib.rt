//! The texts that the program writes: reports, replays of strokes and lines of refusals.
//!
//! Each writer puts its text to a sink. What it puts is stated whole in `specs/`, apart from how it is made. After a
//! fault of the sink, or where memory runs out, a prefix of it was put.
//!
//! A report or a replay is made on a page that is put when it is full, so a text of any length takes little memory.
//! What is looked up for each row of a report, the text of an outline and the pieces of the words' strokes, is indexed
//! once (`indexes`).
#![tactic(auto)]

mod fault_lines;
mod faults;
mod indexes;
mod replays;
mod reports;
mod rows;

pub use fault_lines::{write_fault, write_memory};
pub use faults::{FaultLine, Why};
pub use outside::OutsideFault as ReportFault;
pub use replays::write_replay;
pub use reports::{Summary, write_report, write_settled, write_summary};

#[cfg(test)]
mod tests;
