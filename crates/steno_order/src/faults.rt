//! Why a text isn't read.

ghost use Rattle.std.specs.Prelude.{◌≡◌};

use std::alloc::{AllocError, AllocFailed};
use thiserror::Error;

/// Why a text isn't read as strokes.
#[derive(Clone, Copy, Debug, PartialEq, Eq, Error)]
pub enum StrokesFault {
    /// The first part that spells no stroke, counted from 0.
    #[error("part {part} spells no stroke")]
    Unreadable { part: u32 },
    #[error("out of memory")]
    Memory,
}

impl From<AllocError> for StrokesFault {
    ghost use Rattle.steno_order.specs.declared.faults.StrokesFault.TheVariants.{Memory};

    ghost from_gives = { λ _ e. e ≡ Memory };

    fn from(_: AllocError) -> StrokesFault {
        StrokesFault::Memory
    }
}

impl<T: Drop> From<AllocFailed<T>> for StrokesFault {
    ghost use Rattle.steno_order.specs.declared.faults.StrokesFault.TheVariants.{Memory};

    ghost from_gives = { λ _ e. e ≡ Memory };

    fn from(_: AllocFailed<T>) -> StrokesFault {
        StrokesFault::Memory
    }
}

/// Why a text isn't read as an outline.
#[derive(Clone, Copy, Debug, PartialEq, Eq, Error)]
pub enum OutlineFault {
    /// The first part that spells no stroke, counted from 0.
    #[error("part {part} spells no stroke")]
    Unreadable { part: u32 },
    /// All parts spell strokes, and they are so many.
    #[error("{parts} strokes are more than the 64 of an outline")]
    TooLong { parts: u64 },
    #[error("out of memory")]
    Memory,
}

impl From<AllocError> for OutlineFault {
    ghost use Rattle.steno_order.specs.declared.faults.OutlineFault.TheVariants.{Memory};

    ghost from_gives = { λ _ e. e ≡ Memory };

    fn from(_: AllocError) -> OutlineFault {
        OutlineFault::Memory
    }
}
