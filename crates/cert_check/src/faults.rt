//! What a check answers.

use report::Why;
use thiserror::Error;

/// The certificate is valid.
#[derive(Clone, Copy, Debug, PartialEq, Eq)]
pub struct CheckDone {
    /// How many conflicts it has.
    pub conflicts: u32,
}

/// Why a certificate isn't accepted.
#[derive(Clone, Copy, Debug, PartialEq, Eq, Error)]
pub enum CheckFault {
    /// The first check that fails, by its line, counted from 1, and the reason.
    #[error("the certificate is rejected at line {line}")]
    Rejected { line: u64, why: Why },
    /// Reading the file failed.
    #[error("a call outside failed")]
    Failed,
    /// The file has more bytes than a certificate may have.
    #[error("the certificate is too long")]
    TooLong,
    #[error("out of memory")]
    Memory,
}
