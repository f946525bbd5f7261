//! The top call.

ghost use Rattle.std.specs.Prelude.{◌≡◌, ◌<◌, ◌^◌, All, IfSome, Some, false, map, option_map, string_bytes, string_len};
ghost use Rattle.commands.specs.Commands.{command_view};
ghost use Rattle.commands.specs.Inputs.{searches};
ghost use Rattle.commands.specs.Reading.{command_of};
ghost use Rattle.audit_top.specs.Headline.{Headline};
ghost use Rattle.audit_top.specs.Promises.{Explains, Keeps, Lists, Reads, Tells, Tries, Upgrades, Verifies, Certifies};
ghost use Rattle.audit_top.specs.Runs.{IsRun, world};
ghost use Rattle.audit_top.specs.inside.Answers.{IsAnswer};
ghost use Rattle.commands.specs.Written.{IsWritten};

use crate::audit::{audit, audit_json};
use crate::audit_generated::audit_generated;
use crate::audit_to::audit_to;
use crate::check::check;
use crate::explain::explain;
use crate::generate::generate;
use crate::parse::parse;
use crate::refusals::{Refusal, finish};
use crate::replay::replay;
use crate::rows::rows;
use crate::settled::settled;
use crate::status::Status;
use crate::tries::tries;
use crate::upgrade::upgrade;
use commands::{Command, read_words};
use outside::{Files, Sink};
use std::alloc::Global;
use std::marker::{Send, Sync};
use std::sync::Wait;
use std::thread::Threads;
use steal_rounds::Gate;

/// A command that waits for nobody.
fn answer_plain<F: Files, S: Sink>(
    alloc: Global,
    command: Command<'_>,
    files: &mut F,
    out: &mut S,
) -> Result<Status, Refusal>
    requires written { IsWritten (command_view command) }
    requires plain { searches (Some (command_view command)) ≡ false }
    ensures { let before = world (F.view files.old) (S.text out.old) (S.faults out.old) in
        let after = world (F.view files.new) (S.text out.new) (S.faults out.new) in
        IsAnswer (Some (command_view command.entry)) before after result }
{
    match command {
        Command::Replay {
            outline,
            files: dicts,
        } => replay(alloc, outline, dicts, files, out),
        Command::Explain {
            outlines,
            files: dicts,
        } => explain(alloc, outlines, dicts, files, out),
        Command::Check {
            certificate,
            files: dicts,
        } => check(alloc, certificate, dicts, files, out),
        Command::Generate { start, count } => generate(alloc, start, count, out),
        Command::Rows { file } => rows(alloc, file, files, out),
        Command::Upgrade {
            certificate,
            target,
        } => upgrade(alloc, certificate, target, files, out),
        Command::Audit { .. }
        | Command::AuditJson { .. }
        | Command::AuditTo { .. }
        | Command::Settled { .. }
        | Command::Parse { .. }
        | Command::Try { .. }
        | Command::AuditGenerated { .. } => unreachable!(),
    }
}

/// Any command.
fn answer_command<R: Threads + Wait + Sync, F: Files, S: Sink, K: Gate + Sync>(
    rt: &R,
    alloc: Global,
    command: Command<'_>,
    files: &mut F,
    out: &mut S,
    gate: &K,
) -> Result<Status, Refusal>
    requires { IsWritten (command_view command) }
    ensures { let before = world (F.view files.old) (S.text out.old) (S.faults out.old) in
        let after = world (F.view files.new) (S.text out.new) (S.faults out.new) in
        IsAnswer (Some (command_view command.entry)) before after result }
{
    match command {
        Command::Audit {
            workers,
            files: dicts,
        } => { audit(rt, alloc, workers, dicts, files, out, gate) }
        Command::AuditGenerated {
            start,
            count,
            workers,
        } => { audit_generated(rt, alloc, workers, start, count, out, gate) }
        Command::AuditJson {
            workers,
            files: dicts,
        } => { audit_json(rt, alloc, workers, dicts, files, out, gate) }
        Command::AuditTo {
            certificate,
            workers,
            files: dicts,
        } => { audit_to(rt, alloc, certificate, workers, dicts, files, out, gate) }
        Command::Settled {
            workers,
            files: dicts,
        } => { settled(rt, alloc, workers, dicts, files, out, gate) }
        Command::Parse {
            workers,
            files: dicts,
        } => { parse(rt, alloc, workers, dicts, files, out, gate) }
        Command::Try {
            workers,
            briefs,
            files: dicts,
        } => { tries(rt, alloc, workers, briefs, dicts, files, out, gate) }
        Command::Replay { .. }
        | Command::Explain { .. }
        | Command::Rows { .. }
        | Command::Check { .. }
        | Command::Upgrade { .. }
        | Command::Generate { .. } => answer_plain(alloc, command, files, out),
    }
}

/// The command that waits for nobody, or the refusal of arguments that are none.
fn answer_given_plain<F: Files, S: Sink>(
    alloc: Global,
    command: Option<Command<'_>>,
    files: &mut F,
    out: &mut S,
) -> Result<Status, Refusal>
    requires written { IfSome command (λ c. IsWritten (command_view c)) }
    requires plain { searches (option_map command_view command) ≡ false }
    ensures { let before = world (F.view files.old) (S.text out.old) (S.faults out.old) in
        let after = world (F.view files.new) (S.text out.new) (S.faults out.new) in
        IsAnswer (option_map command_view command.entry) before after result }
{
    match command {
        None => Err(Refusal::Arguments),
        Some(command) => answer_plain(alloc, command, files, out),
    }
}

/// The command, or the refusal of arguments that are none.
fn answer_given<R: Threads + Wait + Sync, F: Files, S: Sink, K: Gate + Sync>(
    rt: &R,
    alloc: Global,
    command: Option<Command<'_>>,
    files: &mut F,
    out: &mut S,
    gate: &K,
) -> Result<Status, Refusal>
    requires { IfSome command (λ c. IsWritten (command_view c)) }
    ensures { let before = world (F.view files.old) (S.text out.old) (S.faults out.old) in
        let after = world (F.view files.new) (S.text out.new) (S.faults out.new) in
        IsAnswer (option_map command_view command.entry) before after result }
{
    match command {
        None => Err(Refusal::Arguments),
        Some(command) => answer_command(rt, alloc, command, files, out, gate),
    }
}

/// Does what the arguments ask for, where that waits for nobody, and ends the run.
fn run_given_plain<F: Files, S: Sink>(
    alloc: Global,
    args: &[String],
    files: &mut F,
    out: &mut S,
) -> Status
    requires short { All (λ arg. string_len arg < 2 ^ 32) args.now }
    requires plain { searches (command_of (map string_bytes args.now)) ≡ false }
    ensures { let before = world (F.view files.old) (S.text out.old) (S.faults out.old) in
        let after = world (F.view files.new) (S.text out.new) (S.faults out.new) in
        IsRun (command_of (map string_bytes args.now)) before after result }
{
    let answered = answer_given_plain(alloc, read_words(args), files, out);
    finish(alloc, out, answered)
}

/// Does what the arguments ask for, and ends the run.
fn run_given<R: Threads + Wait + Sync, F: Files, S: Sink, K: Gate + Sync>(
    rt: &R,
    alloc: Global,
    args: &[String],
    files: &mut F,
    out: &mut S,
    gate: &K,
) -> Status
    requires { All (λ arg. string_len arg < 2 ^ 32) args.now }
    ensures { let before = world (F.view files.old) (S.text out.old) (S.faults out.old) in
        let after = world (F.view files.new) (S.text out.new) (S.faults out.new) in
        IsRun (command_of (map string_bytes args.now)) before after result }
{
    let answered = answer_given(rt, alloc, read_words(args), files, out, gate);
    finish(alloc, out, answered)
}

/// Does what the arguments ask for, where that waits for nobody, and returns how it ended. As [`run`], but it uses no
/// thread.
pub fn run_plain<F: Files, S: Sink>(
    alloc: Global,
    args: &[String],
    files: &mut F,
    out: &mut S,
) -> Status
    requires short { All (λ arg. string_len arg < 2 ^ 32) args.now }
    requires plain { searches (command_of (map string_bytes args.now)) ≡ false }
    ensures run { let before = world (F.view files.old) (S.text out.old) (S.faults out.old) in
        let after = world (F.view files.new) (S.text out.new) (S.faults out.new) in
        IsRun (command_of (map string_bytes args.now)) before after result }
    ensures explains { let command = command_of (map string_bytes args.now) in
        Explains command (F.view files.old).held (S.text out.old) (S.text out.new) result }
    ensures verifies { let command = command_of (map string_bytes args.now) in
        Verifies command (F.view files.old).held (S.text out.old) (S.text out.new) result }
    ensures lists { let command = command_of (map string_bytes args.now) in
        Lists command (F.view files.old).held (S.text out.old) (S.text out.new) result }
    ensures upgrades { let before = world (F.view files.old) (S.text out.old) (S.faults out.old) in
        let after = world (F.view files.new) (S.text out.new) (S.faults out.new) in
        Upgrades (command_of (map string_bytes args.now)) before after result }
{
    run_given_plain(alloc, args, files, out)
}

/// Does what the arguments ask for, and returns how it ended. An audit may wait for its workers and for the gate.
///
/// What is expected of a run is a relation on the arguments and on what the files hold: a status, a text that is added
/// to the output, and for some commands a file that is written. The run ends so; or a named file failed, and its line
/// is added; or the output failed or memory ran out, and a prefix is. Where a file couldn't be read, no file has
/// changed.
///
/// Where `audit-to` ends with [`Status::Clean`] or [`Status::Conflicts`], the file CERT has a valid certificate, which
/// `check` accepts. Its rows are exactly the conflicts, and those of the report.
pub fn run<R: Threads + Wait + Sync, F: Files, S: Sink, K: Gate + Sync>(
    rt: &R,
    alloc: Global,
    args: &[String],
    files: &mut F,
    out: &mut S,
    gate: &K,
) -> Status
    requires { All (λ arg. string_len arg < 2 ^ 32) args.now }
    ensures run { let before = world (F.view files.old) (S.text out.old) (S.faults out.old) in
        let after = world (F.view files.new) (S.text out.new) (S.faults out.new) in
        IsRun (command_of (map string_bytes args.now)) before after result }
    ensures headline { let command = command_of (map string_bytes args.now) in
        Headline command (F.view files.old).held (S.text out.old) (S.text out.new) result }
    ensures explains { let command = command_of (map string_bytes args.now) in
        Explains command (F.view files.old).held (S.text out.old) (S.text out.new) result }
    ensures verifies { let command = command_of (map string_bytes args.now) in
        Verifies command (F.view files.old).held (S.text out.old) (S.text out.new) result }
    ensures lists { let command = command_of (map string_bytes args.now) in
        Lists command (F.view files.old).held (S.text out.old) (S.text out.new) result }
    ensures upgrades { let before = world (F.view files.old) (S.text out.old) (S.faults out.old) in
        let after = world (F.view files.new) (S.text out.new) (S.faults out.new) in
        Upgrades (command_of (map string_bytes args.now)) before after result }
    ensures tells { let command = command_of (map string_bytes args.now) in
        Tells command (F.view files.old).held (S.text out.old) (S.text out.new) result }
    ensures certifies { let before = world (F.view files.old) (S.text out.old) (S.faults out.old) in
        let after = world (F.view files.new) (S.text out.new) (S.faults out.new) in
        Certifies (command_of (map string_bytes args.now)) before after result }
    ensures keeps { let command = command_of (map string_bytes args.now) in
        Keeps command (F.view files.old).held (S.text out.old) (S.text out.new) result }
    ensures reads { let command = command_of (map string_bytes args.now) in
        Reads command (F.view files.old).held (S.text out.old) (S.text out.new) result }
    ensures tries { let command = command_of (map string_bytes args.now) in
        Tries command (F.view files.old).held (S.text out.old) (S.text out.new) result }
{
    run_given(rt, alloc, args, files, out, gate)
}
