//! The commands of the program, from the arguments of the command line to the bytes of the output.
//!
//! [`run`] does all that the program does, and [`run_plain`] what waits for nobody. Their contract is what a user is
//! promised: what is expected of a run is a relation on its arguments and its dictionaries (`specs/Expected.antt`), and
//! a run ends as expected, or with the line of a file that failed, or is cut off where the output failed or memory ran
//! out (`specs/Runs.antt`). Of an audit the headline says by itself that its report has exactly the conflicts
//! (`specs/Headline.antt`). [`run_in_memory`] runs over files and an output that never fail, and so always ends as
//! expected, or memory runs out.
//!
//! Each command is a function of its own module that returns a status or a refusal. One place writes the line of a
//! refusal.
#![tactic(auto)]

mod audit;
mod audit_generated;
mod audit_to;
mod check;
mod explain;
mod generate;
mod in_memory;
mod laws;
mod parse;
mod program;
mod refusals;
mod replay;
mod rows;
mod settled;
mod status;
mod top;
mod tries;
mod upgrade;

pub use in_memory::run_in_memory;
pub use laws::expected_results;
pub use program::run_program;
pub use status::Status;
pub use top::{run, run_plain};
