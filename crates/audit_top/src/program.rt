//! What stands between the arguments that the system gives and the exit status.

ghost use Rattle.std.specs.Prelude.{◌≡◌, ◌<◌, ◌^◌, ◌↔◌, All, IfOk, IsTrue, drop, string_len};
ghost use Rattle.std.specs.Vec.Iter.{into_iter_items};
ghost use Rattle.audit_top.specs.Programs.{IsProgram, Runs, RunsGiven, RunsNone};
ghost use Rattle.audit_top.specs.Runs.{world};

use crate::refusals::put_memory;
use crate::status::Status;
use crate::top::{run, run_plain};
use outside::{Files, Sink};
use std::alloc::{AllocError, Global};
use std::env::Args;
use std::io;
use std::io::ErrorKind;
use std::marker::{Send, Sync};
use std::sync::Wait;
use std::thread::Threads;
use steal_rounds::Gate;

/// All arguments, with the program's name before them.
fn collected(alloc: Global, given: Args) -> Result<Vec<String>, AllocError>
    ensures { IfOk result (λ all. all.items ≡ into_iter_items given) }
{
    given.collect(alloc)
}

/// The arguments after the program's name.
fn after_name(all: &[String]) -> &[String]
    ensures { result.now ≡ drop 1 all.now }
{
    match all {
        [_, args @ ..] => args,
        [] => &[],
    }
}

/// Whether each argument has fewer than 2^32 bytes.
fn are_short(args: &[String]) -> bool
    ensures { IsTrue result ↔ All (λ arg. string_len arg < 2 ^ 32) args.now }
{
    args.iter().all(|arg| arg.len() < 1 << 32)
}

/// A run of arguments, of which one may be too long for a command.
fn run_given<R: Threads + Wait + Sync, F: Files, S: Sink, K: Gate + Sync>(
    rt: &R,
    alloc: Global,
    args: &[String],
    files: &mut F,
    out: &mut S,
    gate: &K,
) -> Status
    ensures { let before = world (F.view files.old) (S.text out.old) (S.faults out.old) in
        let after = world (F.view files.new) (S.text out.new) (S.faults out.new) in
        RunsGiven args.now before after result }
{
    if are_short(args) {
        run(rt, alloc, args, files, out, gate)
    } else {
        run_plain(alloc, &[], files, out)
    }
}

/// What is done where the system gives no arguments.
fn run_none<F: Files, S: Sink>(alloc: Global, kind: ErrorKind, files: &mut F, out: &mut S) -> Status
    ensures { let before = world (F.view files.old) (S.text out.old) (S.faults out.old) in
        let after = world (F.view files.new) (S.text out.new) (S.faults out.new) in
        RunsNone kind before after result }
{
    match kind {
        ErrorKind::OutOfMemory => put_memory(out),
        _ => run_plain(alloc, &[], files, out),
    }
}

/// A run of what the system gives.
fn run_outcome<R: Threads + Wait + Sync, F: Files, S: Sink, K: Gate + Sync>(
    rt: &R,
    alloc: Global,
    given: io::Result<Args>,
    files: &mut F,
    out: &mut S,
    gate: &K,
) -> Status
    ensures { let before = world (F.view files.old) (S.text out.old) (S.faults out.old) in
        let after = world (F.view files.new) (S.text out.new) (S.faults out.new) in
        Runs given before after result }
{
    match given {
        Ok(args) => match collected(alloc, args) {
            Ok(all) => run_given(rt, alloc, after_name(&all), files, out, gate),
            Err(_) => put_memory(out),
        },
        Err(error) => run_none(alloc, error.kind(), files, out),
    }
}

/// The whole program: from what `env::args` returns to the exit status.
///
/// Arguments that aren't text in UTF-8 are no command, and the program says so, as it does where one has 2^32 bytes or
/// more.
pub fn run_program<R: Threads + Wait + Sync, F: Files, S: Sink, K: Gate + Sync>(
    rt: &R,
    alloc: Global,
    given: io::Result<Args>,
    files: &mut F,
    out: &mut S,
    gate: &K,
) -> u8
    ensures { let before = world (F.view files.old) (S.text out.old) (S.faults out.old) in
        let after = world (F.view files.new) (S.text out.new) (S.faults out.new) in
        IsProgram given before after result }
{
    run_outcome(rt, alloc, given, files, out, gate).code()
}
