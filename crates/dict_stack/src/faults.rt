//! Why dictionaries make no stack.

ghost use Rattle.std.specs.Prelude.{◌≡◌};
ghost use Rattle.dict_stack.specs.declared.faults.StackFault.TheVariants.{Memory};

use std::alloc::AllocError;
use thiserror::Error;

/// Why there is no stack of some dictionaries.
#[derive(Clone, Copy, Debug, PartialEq, Eq, Error)]
pub enum StackFault {
    /// There are so many different outlines, more than [`Stack::MAX_ENTRIES`](crate::Stack::MAX_ENTRIES).
    #[error("{count} entries are more than 1,048,576")]
    TooManyEntries { count: u64 },
    #[error("out of memory")]
    Memory,
}

impl From<AllocError> for StackFault {
    ghost from_gives = { λ _ e. e ≡ Memory };

    fn from(_: AllocError) -> StackFault {
        StackFault::Memory
    }
}
