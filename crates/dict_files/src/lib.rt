//! The dictionaries that a command's arguments name, read into a stack.
//!
//! An argument names a file, or with `match:` before the name a file whose outlines translate and are no words.
//! [`read_stack`] reads the files in order and returns the stack or the first refusal, in the order in which a run
//! reports them. It is for every command that works on dictionaries.
#![tactic(auto)]

ghost use Rattle.std.specs.Prelude.{◌≡◌};
ghost use Rattle.dict_files.specs.declared.loading.TheConstants.{MAX_BYTES};

mod faults;
mod loading;
mod names;

pub use faults::LoadFault;
pub use loading::{MAX_BYTES, read_stack};
pub use names::{file_name, names_file, supplies_words};

/// The limit on the bytes of a dictionary's file.
pub fn limits()
    ensures { MAX_BYTES ≡ 67108864 }
{}
