//! Why a call that reaches outside was refused. A device that fails and memory that is wanted are told apart
//! everywhere, since only the first is the fault of a file.

ghost use Rattle.std.specs.Prelude.{◌≡◌};
ghost use Rattle.outside.specs.declared.fault.OutsideFault.TheVariants.{Memory};
ghost use Rattle.outside.specs.declared.fault.ReadFault.TheVariants as read;
ghost use Rattle.outside.specs.Faults.{read_fault_of};

use std::alloc::AllocError;
use thiserror::Error;

/// A device failed. The object that was called has counted it.
#[derive(Clone, Copy, Debug, PartialEq, Eq, Error)]
#[error("a call outside failed")]
pub struct Failed;

/// Why a call of [`Files`](crate::Files) or [`Sink`](crate::Sink) was refused.
#[derive(Clone, Copy, Debug, PartialEq, Eq, Error)]
pub enum OutsideFault {
    #[error("a call outside failed")]
    Failed,
    #[error("out of memory")]
    Memory,
}

impl From<AllocError> for OutsideFault {
    ghost from_gives = { λ _ fault. fault ≡ Memory };

    fn from(_: AllocError) -> OutsideFault {
        OutsideFault::Memory
    }
}

/// Why a whole file wasn't read.
#[derive(Clone, Copy, Debug, PartialEq, Eq, Error)]
pub enum ReadFault {
    #[error("a call outside failed")]
    Failed,
    /// The file has more bytes than were asked for.
    #[error("the file is too long")]
    TooLong,
    #[error("out of memory")]
    Memory,
}

impl From<AllocError> for ReadFault {
    ghost from_gives = { λ _ fault. fault ≡ read.Memory };

    fn from(_: AllocError) -> ReadFault {
        ReadFault::Memory
    }
}

impl From<OutsideFault> for ReadFault {
    ghost from_gives = { λ fault made. made ≡ read_fault_of fault };

    fn from(fault: OutsideFault) -> ReadFault {
        match fault {
            OutsideFault::Failed => ReadFault::Failed,
            OutsideFault::Memory => ReadFault::Memory,
        }
    }
}

/// What was done to a file when a call failed.
#[derive(Clone, Copy, Debug, PartialEq, Eq)]
pub enum Way {
    Reading,
    Writing,
}
