//! Why a certificate isn't read or written.

ghost use Rattle.std.specs.Prelude.{◌≡◌};
ghost use Rattle.certificate.specs.declared.faults.CertFault.TheVariants as of;
ghost use Rattle.certificate.specs.CertFaults.{cert_fault_of};

use outside::{Failed, OutsideFault};
use std::alloc::AllocError;
use thiserror::Error;

/// Why a line isn't read or written.
#[derive(Clone, Copy, Debug, PartialEq, Eq, Error)]
pub enum CertFault {
    /// The line of this number, counted from 1, is the text of no line.
    #[error("line {line} is no line of a certificate")]
    Bad { line: u64 },
    /// The file's device failed.
    #[error("a call outside failed")]
    Failed,
    /// There are more bytes than the limit.
    #[error("the certificate is too long")]
    TooLong,
    #[error("out of memory")]
    Memory,
}

impl From<AllocError> for CertFault {
    ghost from_gives = { λ _ fault. fault ≡ of.Memory };

    fn from(_: AllocError) -> CertFault {
        CertFault::Memory
    }
}

impl From<Failed> for CertFault {
    ghost from_gives = { λ _ fault. fault ≡ of.Failed };

    fn from(_: Failed) -> CertFault {
        CertFault::Failed
    }
}

impl From<OutsideFault> for CertFault {
    ghost from_gives = { λ fault made. made ≡ cert_fault_of fault };

    fn from(fault: OutsideFault) -> CertFault {
        match fault {
            OutsideFault::Failed => CertFault::Failed,
            OutsideFault::Memory => CertFault::Memory,
        }
    }
}
