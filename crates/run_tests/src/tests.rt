//! Runs of whole commands over files in memory.

mod audits;
mod certificates;
mod failing;
mod hostile;
mod in_memory;
mod limits;
mod program;
mod refusals;
mod rows;
mod searches;
mod translations;
