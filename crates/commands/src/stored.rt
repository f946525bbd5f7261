//! The commands over files that the program wrote: reports in JSON and certificates.

ghost use Rattle.std.specs.Prelude.{◌≡◌, map, option_map, string_bytes};
ghost use Rattle.commands.specs.Commands.{command_view};
ghost use Rattle.commands.specs.Reading.{check_of, rows_of, upgrade_of};

use crate::command::Command;
use crate::files::name_files;

/// The rows of the file that is named after the command.
pub(crate) fn rows(args: &[String]) -> Option<Command<'_>>
    ensures { option_map command_view result ≡ rows_of (map string_bytes args.now) }
{
    let [file] = args else {
        return None;
    };
    Some(Command::Rows {
        file: file.as_str(),
    })
}

/// The check of the certificate that is named first after the command, against the dictionaries behind it.
pub(crate) fn check(args: &[String]) -> Option<Command<'_>>
    ensures { option_map command_view result ≡ check_of (map string_bytes args.now) }
{
    match args {
        [certificate, files @ ..] if name_files(files) => Some(Command::Check {
            certificate: certificate.as_str(),
            files,
        }),
        _ => None,
    }
}

/// The certificate that is named first after the command, written anew into the file that is named second.
pub(crate) fn upgrade(args: &[String]) -> Option<Command<'_>>
    ensures { option_map command_view result ≡ upgrade_of (map string_bytes args.now) }
{
    let [certificate, target] = args else {
        return None;
    };
    Some(Command::Upgrade {
        certificate: certificate.as_str(),
        target: target.as_str(),
    })
}
