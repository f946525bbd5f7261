//! The command that the arguments of the command line are.

ghost use Rattle.std.specs.Prelude.{◌≡◌, ◌<◌, ◌^◌, All, IfSome, map, option_map, string_bytes, string_len};
ghost use Rattle.commands.specs.Commands.{command_view};
ghost use Rattle.commands.specs.Reading.{command_of, read_by, readers};
ghost use Rattle.commands.specs.Written.{IsWritten};

use crate::briefs::try_briefs;
use crate::command::Command;
use crate::generated::{audit_generated, generate};
use crate::search::{audit, audit_json, audit_to, parse, settled};
use crate::stored::{check, rows, upgrade};
use crate::typed::{explain, replay};

/// The command, by its name.
fn read_named<'a>(name: &'a str, args: &'a [String]) -> Option<Command<'a>>
    ensures { option_map command_view result
        ≡ read_by readers name.now (map string_bytes args.now) }
{
    match name {
        "replay" => replay(args),
        "explain" => explain(args),
        "audit" => audit(args),
        "audit-json" => audit_json(args),
        "rows" => rows(args),
        "audit-to" => audit_to(args),
        "check" => check(args),
        "upgrade" => upgrade(args),
        "settled" => settled(args),
        "parse" => parse(args),
        "try" => try_briefs(args),
        "generate" => generate(args),
        "audit-generated" => audit_generated(args),
        _ => None,
    }
}

/// The command, by all arguments.
fn read_args(args: &[String]) -> Option<Command<'_>>
    ensures { option_map command_view result ≡ command_of (map string_bytes args.now) }
{
    let [name, others @ ..] = args else {
        return None;
    };
    read_named(name.as_str(), others)
}

/// The command that the arguments are, if they are one. It takes no memory.
///
/// Each argument has a fixed place. A number is written in decimal digits without a sign and without a leading zero.
pub fn read_words(args: &[String]) -> Option<Command<'_>>
    requires { All (λ arg. string_len arg < 2 ^ 32) args.now }
    ensures is { option_map command_view result ≡ command_of (map string_bytes args.now) }
    ensures written { IfSome result (λ command. IsWritten (command_view command)) }
{
    read_args(args)
}
