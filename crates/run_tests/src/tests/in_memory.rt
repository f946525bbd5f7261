//! Runs over files and an output that never fail.

ghost use Rattle.std.specs.Prelude.{◌≡◌, ◌<◌, ◌^◌, All, IsTrue, false, map, string_bytes, string_len};
ghost use Rattle.commands.specs.Inputs.{searches};
ghost use Rattle.commands.specs.Reading.{command_of};

use crate::tests::rows::{are_short, arguments_of, run_line};
use audit_top::{Status, run_in_memory, run_plain};
use commands::{Command, read_words};
use outside::{PlainFiles, PlainSink};
use std::alloc::AllocError;
use steal_rounds::NoGate;

/// Whether the arguments are no command that searches.
fn are_plain(args: &[String]) -> bool
    requires { All (λ arg. string_len arg < 2 ^ 32) args.now }
    ensures { IsTrue result → searches (command_of (map string_bytes args.now)) ≡ false }
{
    match read_words(args) {
        None => true,
        Some(command) => match command {
            Command::Replay { .. }
            | Command::Explain { .. }
            | Command::Rows { .. }
            | Command::Check { .. }
            | Command::Upgrade { .. }
            | Command::Generate { .. } => true,
            Command::Audit { .. }
            | Command::AuditJson { .. }
            | Command::AuditTo { .. }
            | Command::Settled { .. }
            | Command::Parse { .. }
            | Command::Try { .. }
            | Command::AuditGenerated { .. } => false,
        },
    }
}

#[test]
fn plain_objects_never_fail(rt: HostRuntime) -> Result<(), AllocError> {
    let mut files = PlainFiles::new(rt.alloc());
    files.add("d", b"{\"S\": \"s\"}")?;
    let mut out = PlainSink::new(rt.alloc());
    let args = arguments_of(rt.alloc(), "replay S d")?;
    assert!(rt; are_short(&args));
    let found = run_in_memory(&rt, rt.alloc(), &args, &mut files, &mut out, &NoGate);
    assert_eq!(rt; found, Status::Clean);
    assert!(rt; out.text() == b"S \"s\"\n".as_slice());
    Ok(())
}

/// An audit writes its certificate, and the check accepts it.
#[test]
fn plain_objects_keep_a_certificate(rt: HostRuntime) -> Result<(), AllocError> {
    let mut files = PlainFiles::new(rt.alloc());
    files.add("d", b"{\"S\": \"a\", \"S/S\": \"b\"}")?;
    let mut out = PlainSink::new(rt.alloc());
    let found = run_line(&rt, rt.alloc(), "audit-to c 2 d", &mut files, &mut out)?;
    assert_eq!(rt; found, Status::Conflicts);
    let mut out = PlainSink::new(rt.alloc());
    let args = arguments_of(rt.alloc(), "check c d")?;
    assert!(rt; are_short(&args));
    assert!(rt; are_plain(&args));
    let found = run_plain(rt.alloc(), &args, &mut files, &mut out);
    assert_eq!(rt; found, Status::Clean);
    assert!(rt; out.text() == b"accepted conflicts 1\n".as_slice());
    Ok(())
}
