//! Why a file is refused.

ghost use Rattle.std.specs.Prelude.{◌≡◌};

use crate::texts::Text;
use std::alloc::AllocError;
use thiserror::Error;

/// Why the bytes of a file give no dictionary, the first cause that holds.
#[derive(Debug, Drop, Error)]
pub enum DictFault {
    /// The bytes have no reading by `serde_json`.
    #[error("this is no JSON")]
    NotJson,
    /// The value is no object.
    #[error("the value is no object")]
    NotObject,
    /// The first key by bytes whose value is no text.
    #[error("the value of {key} is no text")]
    NotText { key: Text },
    /// The first key by bytes that has more parts than an outline has strokes, all readable, with the number of its
    /// parts.
    #[error("{key} has {parts} strokes, more than the 64 of an outline")]
    TooLong { key: Text, parts: u64 },
    #[error("out of memory")]
    Memory,
}

impl From<AllocError> for DictFault {
    ghost use Rattle.dict_json.specs.declared.faults.DictFault.TheVariants.{Memory};

    ghost from_gives = { λ _ e. e ≡ Memory };

    fn from(_: AllocError) -> DictFault {
        DictFault::Memory
    }
}
