//! `try` and its briefs, which are one argument with commas between them.

ghost use Rattle.std.specs.Prelude.{◌≡◌, ◌<◌, ◌≤◌, ◌^◌, All, IfOk, Some, length, map, option_map, string_bytes, true};
ghost use Rattle.std.specs.List.{list_all};
ghost use Rattle.steno_rules.specs.Outlines.{IsOutline};
ghost use Rattle.steno_order.specs.Reading.{spelt_strokes};
ghost use Rattle.commands.specs.Commands.{are_briefs as are_briefs_in, brief_outlines, brief_texts, command_view, is_brief as is_brief_text, try_briefs as try_with};
ghost use Rattle.commands.specs.Reading.{if_valid, try_of};

use crate::command::Command;
use crate::files::name_files;
use crate::numbers::read_number;
use crate::typed::part_count;
use brief_trial::{MAX_BRIEFS, MAX_TRIERS};
use std::alloc::{AllocError, Global};
use steno_order::{OutlineFault, is_readable, read_outline};
use stroke::Outline;

/// Whether a text is readable as an outline.
fn is_brief(text: &str) -> bool
    ensures { result ≡ is_brief_text text.now }
{
    is_readable(text) && part_count(text, b'/') <= Outline::MAX
}

/// Whether each text between commas is readable as an outline.
fn all_briefs(briefs: &str) -> bool
    ensures { result ≡ list_all is_brief_text (brief_texts briefs.now) }
{
    briefs.split(',').all(|text| is_brief(text))
}

/// Whether a text is one brief or more with commas between them, and not too many.
fn are_briefs(briefs: &str) -> bool
    ensures { result ≡ are_briefs_in briefs.now }
{
    part_count(briefs, b',') <= MAX_BRIEFS && all_briefs(briefs)
}

/// The trial of these briefs over these dictionaries.
fn try_by<'a>(workers: u64, briefs: &'a str, files: &'a [String]) -> Option<Command<'a>>
    requires { workers ≤ MAX_TRIERS }
    ensures { option_map command_view result
        ≡ if_valid (try_with workers briefs.now (map string_bytes files.now)) }
{
    if workers >= 1 && are_briefs(briefs) && name_files(files) {
        Some(Command::Try {
            workers: workers as u32,
            briefs,
            files,
        })
    } else {
        None
    }
}

/// The trial of the arguments after its name.
pub(crate) fn try_briefs(args: &[String]) -> Option<Command<'_>>
    ensures { option_map command_view result ≡ try_of (map string_bytes args.now) }
{
    let [workers, briefs, files @ ..] = args else {
        return None;
    };
    let workers = read_number(workers.as_str(), u64::from(MAX_TRIERS))?;
    try_by(workers, briefs.as_str(), files)
}

/// The texts between commas.
fn cut_briefs(alloc: Global, briefs: &str) -> Result<Vec<&str>, AllocError>
    ensures { IfOk result (λ texts. map (λ text. text.now) texts.items ≡ brief_texts briefs.now) }
{
    briefs.split(',').collect(alloc)
}

/// The outline of a text that is readable as one.
fn read_brief(alloc: Global, text: &str) -> Result<Outline, AllocError>
    requires short { length text.now < 2 ^ 32 }
    requires readable { is_brief_text text.now ≡ true }
    ensures spelt { IfOk result (λ outline. spelt_strokes text.now ≡ Some outline) }
    ensures outline { IfOk result IsOutline }
{
    match read_outline(alloc, text) {
        Ok(outline) => Ok(outline),
        Err(OutlineFault::Memory) => Err(AllocError),
        Err(OutlineFault::Unreadable { .. }) => unreachable!(),
        Err(OutlineFault::TooLong { .. }) => unreachable!(),
    }
}

/// The outlines of a command's briefs, in their order.
///
/// It fails where memory is refused. Costs one step a character, and memory of the outlines' length.
pub fn read_briefs(alloc: Global, briefs: &str) -> Result<Vec<Outline>, AllocError>
    requires short { length briefs.now < 2 ^ 32 }
    requires briefs { are_briefs_in briefs.now ≡ true }
    ensures read { IfOk result (λ outlines. outlines.items ≡ brief_outlines briefs.now) }
    ensures outlines { IfOk result (λ outlines. All IsOutline outlines.items) }
    ensures some { IfOk result (λ outlines. 1 ≤ length outlines.items) }
    ensures few { IfOk result (λ outlines. length outlines.items ≤ MAX_BRIEFS) }
{
    let texts = cut_briefs(alloc, briefs)?;
    let mut outlines = Vec::with_capacity(alloc, texts.len())?;
    for text in &texts {
        let outline = read_brief(alloc, text)?;
        outlines.push(outline)?;
    }
    Ok(outlines)
}
