//! Objects over the runtime's files and its standard output. They tell contracts no bytes: here the proofs end.

mod gathering;
mod real_files;
mod real_sink;

pub use real_files::RealFiles;
pub use real_sink::RealSink;
