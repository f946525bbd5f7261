//! Runs of the objects in memory, and what the system does with real files, which no contract can say.

mod faults;
mod plain;
mod real;
