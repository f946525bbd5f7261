//! Why some dictionaries make no stack.

ghost use Rattle.std.specs.Prelude.{◌≡◌};
ghost use Rattle.report.specs.Refusals.{refusal_of};
ghost use Rattle.dict_files.specs.Loading.{dict_refusal, load_refusal};
ghost use Rattle.dict_files.specs.inside.Conversions.{load_by_dictionary, load_by_read, load_by_stack};

use dict_json::DictFault;
use dict_stack::StackFault;
use outside::ReadFault;
use report::FaultLine;
use std::alloc::{AllocError, AllocFailed};
use thiserror::Error;

/// Why some dictionaries make no stack, the first cause that holds. Files are counted from 1.
#[derive(Debug, Drop, Error)]
pub enum LoadFault {
    #[error("{count} dictionaries, more than are read")]
    TooMany { count: u64 },
    #[error("reading the file {file} failed")]
    Failed { file: u32 },
    #[error("the file {file} has too many bytes")]
    TooLong { file: u32 },
    #[error("the file {file} is refused: {fault}")]
    Refused { file: u32, fault: DictFault },
    #[error("{count} entries, more than a stack has")]
    Entries { count: u64 },
    #[error("there is not enough memory")]
    Memory,
}

impl From<AllocError> for LoadFault {
    ghost use Rattle.dict_files.specs.declared.faults.LoadFault.TheVariants.{Memory};

    ghost from_gives = { λ _ fault. fault ≡ Memory };

    fn from(_: AllocError) -> LoadFault {
        LoadFault::Memory
    }
}

impl<T: Drop> From<AllocFailed<T>> for LoadFault {
    ghost use Rattle.dict_files.specs.declared.faults.LoadFault.TheVariants.{Memory};

    ghost from_gives = { λ _ fault. fault ≡ Memory };

    fn from(_: AllocFailed<T>) -> LoadFault {
        LoadFault::Memory
    }
}

impl From<StackFault> for LoadFault {
    ghost from_gives = { λ stack fault. fault ≡ load_by_stack stack };

    fn from(fault: StackFault) -> LoadFault {
        match fault {
            StackFault::TooManyEntries { count } => LoadFault::Entries { count },
            StackFault::Memory => LoadFault::Memory,
        }
    }
}

/// Why the file of this number wasn't read.
pub(crate) fn unread(file: u32, fault: ReadFault) -> LoadFault
    ensures { result ≡ load_by_read file fault }
{
    match fault {
        ReadFault::Failed => LoadFault::Failed { file },
        ReadFault::TooLong => LoadFault::TooLong { file },
        ReadFault::Memory => LoadFault::Memory,
    }
}

/// Why the bytes of the file of this number are no dictionary.
pub(crate) fn refused(file: u32, fault: DictFault) -> LoadFault
    ensures { result ≡ load_by_dictionary file fault }
{
    match fault {
        DictFault::Memory => LoadFault::Memory,
        fault => LoadFault::Refused { file, fault },
    }
}

/// The line of a dictionary's refusal.
fn dict_line(file: u32, fault: &DictFault) -> FaultLine<'_>
    ensures { refusal_of result ≡ dict_refusal file fault.now }
{
    match fault {
        DictFault::NotJson => FaultLine::NotJson { file },
        DictFault::NotObject => FaultLine::NotObject { file },
        DictFault::NotText { key } => FaultLine::NotText {
            file,
            key: key.as_str(),
        },
        DictFault::TooLong { key, parts } => FaultLine::OutlineLong {
            file,
            key: key.as_str(),
            parts: *parts,
        },
        DictFault::Memory => FaultLine::Memory,
    }
}

impl LoadFault {
    /// The line that says so.
    pub fn line(&self) -> FaultLine<'_>
        ensures { refusal_of result ≡ load_refusal self.now }
    {
        match self {
            LoadFault::TooMany { count } => FaultLine::Dictionaries { count: *count },
            LoadFault::Failed { file } => FaultLine::FileFailed { file: *file },
            LoadFault::TooLong { file } => FaultLine::Bytes { file: *file },
            LoadFault::Refused { file, fault } => dict_line(*file, fault),
            LoadFault::Entries { count } => FaultLine::Entries { count: *count },
            LoadFault::Memory => FaultLine::Memory,
        }
    }
}
