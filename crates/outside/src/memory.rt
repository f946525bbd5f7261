//! Objects in memory, which tell contracts all their bytes: those that fail where a test tells them to, and those that
//! never fail.

mod held_files;
mod mem_files;
mod mem_sink;
mod plain_files;
mod plain_sink;
mod script;

pub use mem_files::MemFiles;
pub use mem_sink::MemSink;
pub use plain_files::PlainFiles;
pub use plain_sink::PlainSink;
