//! The commands of the program, and the arguments of the command line that each is.
//!
//! [`read_words`] takes exactly the arguments that are written as a command (`specs/Commands.antt`), and says so by a
//! function of them (`specs/Reading.antt`) and by a law. What each command reads, searches and writes stands in
//! `specs/Inputs.antt`. It takes no memory. [`read_briefs`] reads the outlines of `try`, which are one argument.
#![tactic(auto)]

mod briefs;
mod command;
mod files;
mod generated;
mod laws;
mod numbers;
mod search;
mod stored;
mod typed;
mod words;

pub use briefs::read_briefs;
pub use command::Command;
pub use laws::command_arguments;
pub use words::read_words;
