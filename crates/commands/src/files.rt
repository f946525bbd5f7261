//! Arguments that name dictionaries.

ghost use Rattle.std.specs.Prelude.{◌≡◌, map, not, string_bytes};
ghost use Rattle.std.specs.List.{list_all};
ghost use Rattle.std.specs.Str.{bytes_eq};
ghost use Rattle.dict_files.specs.DictFiles.{match_prefix};
ghost use Rattle.commands.specs.Commands.{are_files};

use dict_files::names_file;

/// Whether each of the arguments names a file.
fn all_name_files(args: &[String]) -> bool
    ensures { result
        ≡ list_all (λ arg. not (bytes_eq arg match_prefix)) (map string_bytes args.now) }
{
    for arg in args {
        if !names_file(arg.as_str()) {
            return false;
        }
    }
    true
}

/// Whether the arguments name one file or more.
pub(crate) fn name_files(args: &[String]) -> bool
    ensures { result ≡ are_files (map string_bytes args.now) }
{
    !args.is_empty() && all_name_files(args)
}
