//! Why bytes are no report.

ghost use Rattle.std.specs.Prelude.{◌≡◌};

use std::alloc::{AllocError, AllocFailed};
use thiserror::Error;

/// Why the bytes of a file give no report, the first cause that holds.
#[derive(Debug, Drop, Error)]
pub enum JsonFault {
    /// The bytes have no reading by `serde_json`.
    #[error("this is no JSON")]
    NotJson,
    /// The value is that of no report.
    #[error("the value is no report")]
    NotReport,
    #[error("out of memory")]
    Memory,
}

impl From<AllocError> for JsonFault {
    ghost use Rattle.report_json.specs.declared.faults.JsonFault.TheVariants.{Memory};

    ghost from_gives = { λ _ e. e ≡ Memory };

    fn from(_: AllocError) -> JsonFault {
        JsonFault::Memory
    }
}

impl<T: Drop> From<AllocFailed<T>> for JsonFault {
    ghost use Rattle.report_json.specs.declared.faults.JsonFault.TheVariants.{Memory};

    ghost from_gives = { λ _ e. e ≡ Memory };

    fn from(_: AllocFailed<T>) -> JsonFault {
        JsonFault::Memory
    }
}
