//! `generate` and `audit-generated`, whose dictionary is made from two numbers.

ghost use Rattle.std.specs.Prelude.{◌≡◌, ◌∷◌, [], map, option_map, string_bytes};
ghost use Rattle.commands.specs.Commands.{command_view};
ghost use Rattle.commands.specs.Reading.{audit_generated_of, generate_of};

use crate::command::Command;
use crate::numbers::{read_number, read_workers};
use dict_json::MAX_GENERATED;

/// The generated dictionary of the arguments after its name.
pub(crate) fn generate(args: &[String]) -> Option<Command<'_>>
    ensures { option_map command_view result ≡ generate_of (map string_bytes args.now) }
{
    let [start, count] = args else {
        return None;
    };
    let start = read_number(start.as_str(), u64::MAX)?;
    let count = read_number(count.as_str(), u64::from(MAX_GENERATED))?;
    Some(Command::Generate {
        start,
        count: count as u32,
    })
}

/// The audit of the dictionary that is generated from these numbers.
fn audit_numbers<'a>(start: &'a str, count: &'a str, workers: &'a str) -> Option<Command<'a>>
    ensures { option_map command_view result
        ≡ audit_generated_of (start.now ∷ count.now ∷ workers.now ∷ []) }
{
    let start = read_number(start, u64::MAX)?;
    let count = read_number(count, u64::from(MAX_GENERATED))?;
    let workers = read_workers(workers)?;
    if workers >= 1 {
        Some(Command::AuditGenerated {
            start,
            count: count as u32,
            workers: workers as u32,
        })
    } else {
        None
    }
}

/// The audit of a generated dictionary of the arguments after its name.
pub(crate) fn audit_generated(args: &[String]) -> Option<Command<'_>>
    ensures { option_map command_view result ≡ audit_generated_of (map string_bytes args.now) }
{
    match args {
        [start, count, workers] => {
            audit_numbers(start.as_str(), count.as_str(), workers.as_str())
        }
        _ => None,
    }
}
