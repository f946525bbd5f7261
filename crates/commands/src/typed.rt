//! `replay` and `explain`, which translate outlines.

ghost use Rattle.std.specs.Prelude.{◌≡◌, ◌<◌, ◌^◌, ◌↔◌, IsTrue, length, map, option_map, position, string_bytes};
ghost use Rattle.std.specs.List.{list_all};
ghost use Rattle.text_rules.specs.Lines.{parts_between};
ghost use Rattle.commands.specs.Commands.{are_spelt, command_view, explain as explain_by, is_spelt, strokes_written};
ghost use Rattle.commands.specs.Reading.{explain_of, if_valid, is_dashes, replay_of};

use crate::command::Command;
use crate::files::name_files;
use steno_order::is_readable;

/// What stands between the outlines and the dictionaries of `explain`.
const DASHES: &str = "--";

/// The replay of the arguments after its name.
pub(crate) fn replay(args: &[String]) -> Option<Command<'_>>
    ensures { option_map command_view result ≡ replay_of (map string_bytes args.now) }
{
    match args {
        [outline, files @ ..] if is_readable(outline.as_str()) && name_files(files) => {
            Some(Command::Replay {
                outline: outline.as_str(),
                files,
            })
        }
        _ => None,
    }
}

/// Whether each of the arguments is readable as one stroke or more.
fn all_readable(args: &[String]) -> bool
    ensures { result ≡ list_all is_spelt (map string_bytes args.now) }
{
    for arg in args {
        if !is_readable(arg.as_str()) {
            return false;
        }
    }
    true
}

/// How many parts a text has between bytes of this value.
pub(crate) fn part_count(text: &str, separator: u8) -> usize
    ensures { result ≡ length (parts_between separator text.now) }
{
    let mut parts = 1;
    for byte in text.as_bytes() {
        if *byte == separator {
            parts += 1;
        }
    }
    parts
}

/// Whether readable outlines have fewer than 2^32 strokes.
fn few_strokes(outlines: &[String]) -> bool
    ensures { IsTrue result ↔ (strokes_written (map string_bytes outlines.now) < 2 ^ 32) }
{
    let mut strokes: usize = 0;
    for outline in outlines {
        strokes = strokes.saturating_add(part_count(outline.as_str(), b'/'));
        if strokes >= 1 << 32 {
            return false;
        }
    }
    true
}

/// Whether the arguments are one readable outline or more, of fewer than 2^32 strokes.
fn are_outlines(args: &[String]) -> bool
    ensures { result ≡ are_spelt (map string_bytes args.now) }
{
    !args.is_empty() && all_readable(args) && few_strokes(args)
}

/// The place of the first `--`.
fn place_of_dashes(args: &[String]) -> Option<usize>
    ensures { result ≡ position is_dashes (map string_bytes args.now) }
{
    for (place, arg) in args.iter().enumerate() {
        if arg.as_str() == DASHES {
            return Some(place);
        }
    }
    None
}

/// The explanation of these outlines over these dictionaries.
fn explain_outlines<'a>(outlines: &'a [String], files: &'a [String]) -> Option<Command<'a>>
    ensures { option_map command_view result
        ≡ if_valid (explain_by (map string_bytes outlines.now) (map string_bytes files.now)) }
{
    if are_outlines(outlines) && name_files(files) {
        Some(Command::Explain { outlines, files })
    } else {
        None
    }
}

/// The outlines and the dictionaries of the arguments after `explain`.
pub(crate) fn explain(args: &[String]) -> Option<Command<'_>>
    ensures { option_map command_view result ≡ explain_of (map string_bytes args.now) }
{
    let place = place_of_dashes(args)?;
    let (outlines, others) = args.split_at(place);
    let (_, files) = others.split_at(1);
    explain_outlines(outlines, files)
}
