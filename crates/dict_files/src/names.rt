//! What an argument says of a dictionary's file.

ghost use Rattle.std.specs.Prelude.{◌≡◌, not};
ghost use Rattle.std.specs.Str.{bytes_eq};
ghost use Rattle.dict_files.specs.DictFiles.{file_of, match_prefix};

/// What stands before the name of a match file.
const MATCH: &str = "match:";

/// The name of the file that the argument names.
pub fn file_name(arg: &str) -> &str
    ensures { result.now ≡ (file_of arg.now).name }
{
    match arg.strip_prefix(MATCH) {
        Some(name) => name,
        None => arg,
    }
}

/// Whether the outlines of the file that the argument names are words.
pub fn supplies_words(arg: &str) -> bool
    ensures { result ≡ (file_of arg.now).has_words }
{
    !arg.starts_with(MATCH)
}

/// Whether the argument names a file: all do but `match:` alone.
pub fn names_file(arg: &str) -> bool
    ensures { result ≡ not (bytes_eq arg.now match_prefix) }
{
    arg != MATCH
}
