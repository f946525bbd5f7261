//! All that the program reads or writes goes through two traits: [`Files`], files by name, and [`Sink`], an output that
//! only grows.
//!
//! An object of these traits tells contracts its bytes or doesn't, and counts its faults. So a contract above can say
//! which bytes were read and written, and that a failing device is blamed only where one failed in this very call, with
//! the file and the direction of the latest fault.
//!
//! - [`MemFiles`] and [`MemSink`] are in memory and fail where a test tells them to.
//! - [`PlainFiles`] and [`PlainSink`] are in memory and never fail, by contract.
//! - [`RealFiles`] and [`RealSink`] are over the runtime's files and its standard output. They tell no bytes: here the
//!   proofs end, and what the system does with the bytes is trusted.
//! - [`read_all`], [`write_all`] and [`write_all_file`] move whole files and texts over calls that move as much as they
//!   like.
#![tactic(auto)]

mod fault;
mod files;
mod memory;
mod places;
mod reading;
mod real;
mod sink;
mod writing;

pub use fault::{Failed, OutsideFault, ReadFault, Way};
pub use files::Files;
pub use memory::{MemFiles, MemSink, PlainFiles, PlainSink};
pub use reading::read_all;
pub use real::{RealFiles, RealSink};
pub use sink::Sink;
pub use writing::{write_all, write_all_file};

#[cfg(test)]
mod tests;
