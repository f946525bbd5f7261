//! The commands that search with workers: a number of workers, and dictionaries.

ghost use Rattle.std.specs.Prelude.{◌≡◌, map, option_map, string_bytes};
ghost use Rattle.commands.specs.Commands.{command_view, audit as audit_by, audit_json as audit_json_by, parse as parse_by, settled as settled_by};
ghost use Rattle.commands.specs.Reading.{audit_to_of, search_of, searchers_of};

use crate::command::Command;
use crate::files::name_files;
use crate::numbers::read_workers;

/// The number of workers and the dictionaries of the arguments after a command's name.
fn searchers(args: &[String]) -> Option<(u32, &[String])>
    ensures { option_map (λ found. (found.0, map string_bytes found.1.now)) result
        ≡ searchers_of (map string_bytes args.now) }
{
    let [workers, files @ ..] = args else {
        return None;
    };
    let workers = read_workers(workers.as_str())?;
    if workers >= 1 && name_files(files) {
        Some((workers as u32, files))
    } else {
        None
    }
}

/// The audit of the dictionaries of the arguments after its name.
pub(crate) fn audit(args: &[String]) -> Option<Command<'_>>
    ensures { option_map command_view result ≡ search_of audit_by (map string_bytes args.now) }
{
    let (workers, files) = searchers(args)?;
    Some(Command::Audit { workers, files })
}

/// The audit whose report is JSON.
pub(crate) fn audit_json(args: &[String]) -> Option<Command<'_>>
    ensures { option_map command_view result ≡ search_of audit_json_by (map string_bytes args.now) }
{
    let (workers, files) = searchers(args)?;
    Some(Command::AuditJson { workers, files })
}

/// The pairs that stay, of the dictionaries of the arguments after the name.
pub(crate) fn settled(args: &[String]) -> Option<Command<'_>>
    ensures { option_map command_view result ≡ search_of settled_by (map string_bytes args.now) }
{
    let (workers, files) = searchers(args)?;
    Some(Command::Settled { workers, files })
}

/// Two readings by the words of the dictionaries of the arguments after the name.
pub(crate) fn parse(args: &[String]) -> Option<Command<'_>>
    ensures { option_map command_view result ≡ search_of parse_by (map string_bytes args.now) }
{
    let (workers, files) = searchers(args)?;
    Some(Command::Parse { workers, files })
}

/// The audit that writes the certificate whose name stands first.
pub(crate) fn audit_to(args: &[String]) -> Option<Command<'_>>
    ensures { option_map command_view result ≡ audit_to_of (map string_bytes args.now) }
{
    let [certificate, others @ ..] = args else {
        return None;
    };
    let (workers, files) = searchers(others)?;
    Some(Command::AuditTo {
        certificate: certificate.as_str(),
        workers,
        files,
    })
}
