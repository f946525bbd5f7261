//! Why states weren't numbered.

ghost use Rattle.std.specs.Prelude.{◌≡◌};
ghost use Rattle.state_numbering.specs.declared.fault.NumberFault.TheVariants.{Memory};

use std::alloc::AllocError;
use thiserror::Error;

/// Why states weren't numbered.
#[derive(Clone, Copy, Debug, PartialEq, Eq, Drop, Error)]
pub enum NumberFault {
    /// There are this many numbers, more than 33,554,432.
    #[error("there are {count} states, more than 33554432")]
    TooManyStates { count: u64 },
    /// No memory was left.
    #[error("out of memory")]
    Memory,
}

impl From<AllocError> for NumberFault {
    ghost from_gives = { λ _ fault. fault ≡ Memory };

    fn from(_: AllocError) -> NumberFault {
        NumberFault::Memory
    }
}
