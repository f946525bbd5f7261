//! The dictionaries of a command, read into a stack, or the first refusal.

ghost use Rattle.std.specs.Prelude.{◌≡◌, ◌≤◌, ◌<◌, ◌^◌, IfErr, IfOk, length, map, string_bytes};
ghost use Rattle.outside.specs.Faults.{Steady};
ghost use Rattle.outside.specs.Files.{IsLastOpened, LeavesFiles};
ghost use Rattle.dict_stack.specs.Stacks.{most_dictionaries};
ghost use Rattle.dict_files.specs.DictFiles.{file_of, kinds_of};
ghost use Rattle.dict_files.specs.Contents.{ReadsOnly};
ghost use Rattle.dict_files.specs.Loading.{IsLoadCause, IsLoaded, is_load_failed};
ghost use Rattle.dict_files.specs.inside.Reading.{AreRead, IsFileCause, IsRead};

use crate::faults::{LoadFault, refused, unread};
use crate::names::{file_name, supplies_words};
use dict_json::{Dictionary, read_dictionary};
use dict_stack::Stack;
use outside::{Files, read_all};
use std::alloc::{AllocError, Global};

/// The most bytes of a dictionary's file.
pub const MAX_BYTES: u64 = 67_108_864;

/// The most dictionaries of a stack.
const MAX_DICTIONARIES: usize = 16;

/// The dictionary of the file of this number.
fn read_file<F: Files>(
    alloc: Global,
    files: &mut F,
    name: &str,
    file: u32,
) -> Result<Dictionary, LoadFault>
    ensures ok { IfOk result (IsRead file name.now (F.view files.old).held) }
    ensures err { IfErr result (IsFileCause file name.now (F.view files.old) (F.view files.new)) }
    ensures leaves { LeavesFiles (F.view files.old) (F.view files.new) }
    ensures opened { IsLastOpened name.now (F.view files.old) (F.view files.new) }
    ensures later { (F.view files.old).faults ≤ (F.view files.new).faults }
    ensures steady { Steady (is_load_failed result)
        (F.view files.old).faults (F.view files.new).faults }
{
    let bytes = match read_all(alloc, files, name, MAX_BYTES) {
        Ok(bytes) => bytes,
        Err(fault) => return Err(unread(file, fault)),
    };
    read_dictionary(alloc, &bytes).map_err(|fault| refused(file, fault))
}

/// The dictionaries that the arguments name, one after another.
fn read_dictionaries<F: Files>(
    alloc: Global,
    files: &mut F,
    args: &[String],
) -> Result<Vec<Dictionary>, LoadFault>
    requires { length args.now ≤ most_dictionaries }
    ensures ok { IfOk result
        (λ all. AreRead (map string_bytes args.now) (F.view files.old).held all.items) }
    ensures err { IfErr result
        (IsLoadCause (map string_bytes args.now) (F.view files.old) (F.view files.new)) }
    ensures reads { ReadsOnly (map string_bytes args.now) (F.view files.old) (F.view files.new) }
    ensures steady { Steady (is_load_failed result)
        (F.view files.old).faults (F.view files.new).faults }
{
    let mut dictionaries = Vec::with_capacity(alloc, args.len())?;
    for (place, arg) in args.iter().enumerate() {
        let dictionary = read_file(alloc, files, file_name(arg.as_str()), place as u32 + 1)?;
        dictionaries.push(dictionary)?;
    }
    Ok(dictionaries)
}

/// For each argument whether its file supplies words.
fn word_files(alloc: Global, args: &[String]) -> Result<Vec<bool>, AllocError>
    ensures { IfOk result (λ kinds. kinds.items ≡ kinds_of (map string_bytes args.now)) }
{
    let mut kinds = Vec::with_capacity(alloc, args.len())?;
    for arg in args {
        kinds.push(supplies_words(arg.as_str()))?;
    }
    Ok(kinds)
}

/// The stack of some dictionaries that aren't too many.
fn read_few<F: Files>(alloc: Global, files: &mut F, args: &[String]) -> Result<Stack, LoadFault>
    requires { length args.now ≤ most_dictionaries }
    ensures ok { IfOk result (IsLoaded (map string_bytes args.now) (F.view files.old).held) }
    ensures err { IfErr result
        (IsLoadCause (map string_bytes args.now) (F.view files.old) (F.view files.new)) }
    ensures reads { ReadsOnly (map string_bytes args.now) (F.view files.old) (F.view files.new) }
    ensures steady { Steady (is_load_failed result)
        (F.view files.old).faults (F.view files.new).faults }
{
    let dictionaries = read_dictionaries(alloc, files, args)?;
    let kinds = word_files(alloc, args)?;
    let stack = Stack::new(alloc, dictionaries, kinds)?;
    Ok(stack)
}

/// The stack of the dictionaries that the arguments name, or the first refusal.
///
/// Refused where they are too many, and then no file is opened and no memory is asked for; then for the first file that
/// can't be read, is too long or is no dictionary; then for too many entries. The cost is that of reading each file, of
/// its JSON and of merging the dictionaries.
pub fn read_stack<F: Files>(
    alloc: Global,
    files: &mut F,
    args: &[String],
) -> Result<Stack, LoadFault>
    ensures ok { IfOk result (IsLoaded (map string_bytes args.now) (F.view files.old).held) }
    ensures err { IfErr result
        (IsLoadCause (map string_bytes args.now) (F.view files.old) (F.view files.new)) }
    ensures reads { ReadsOnly (map string_bytes args.now) (F.view files.old) (F.view files.new) }
    ensures steady { Steady (is_load_failed result)
        (F.view files.old).faults (F.view files.new).faults }
{
    if args.len() > MAX_DICTIONARIES {
        return Err(LoadFault::TooMany {
            count: args.len() as u64,
        });
    }
    read_few(alloc, files, args)
}
