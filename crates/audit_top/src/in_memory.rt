//! Runs over files and an output in memory that never fail.

ghost use Rattle.std.specs.Prelude.{◌<◌, ◌^◌, All, map, string_bytes, string_len};
ghost use Rattle.outside.specs.Mem.{plain_view};
ghost use Rattle.commands.specs.Reading.{command_of};
ghost use Rattle.audit_top.specs.Promises.{Completes};

use crate::status::Status;
use crate::top::run;
use outside::{PlainFiles, PlainSink};
use std::alloc::Global;
use std::marker::Sync;
use std::sync::Wait;
use std::thread::Threads;
use steal_rounds::Gate;

/// As [`run`], over files and an output that never fail: it ends as expected, or memory runs out.
pub fn run_in_memory<R: Threads + Wait + Sync, K: Gate + Sync>(
    rt: &R,
    alloc: Global,
    args: &[String],
    files: &mut PlainFiles,
    out: &mut PlainSink,
    gate: &K,
) -> Status
    requires { All (λ arg. string_len arg < 2 ^ 32) args.now }
    ensures { let command = command_of (map string_bytes args.now) in
        Completes command (plain_view files.old).held result }
{
    run(rt, alloc, args, files, out, gate)
}
