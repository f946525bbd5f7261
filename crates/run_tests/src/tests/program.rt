//! What the program makes of the arguments that the system gives.

use crate::tests::failing::THREE;
use crate::tests::rows::{arguments_of, files_of};
use audit_top::run_program;
use outside::{MemFiles, MemSink};
use std::alloc::{AllocError, Global};
use std::io;
use std::io::ErrorKind;
use std::marker::Sync;
use std::process::Abort;
use std::sync::Wait;
use std::thread::Threads;
use steal_rounds::NoGate;

/// Runs the program with these arguments after its name.
fn run_arguments(
    rt: &(impl Abort + Threads + Wait + Sync),
    alloc: Global,
    line: &str,
    code: u8,
    text: &[u8],
) -> Result<(), AllocError> {
    let args = arguments_of(alloc, line)?;
    let mut files = files_of(alloc, THREE)?;
    let mut out = MemSink::new(alloc);
    let found = run_program(
        rt,
        alloc,
        Ok(args.into_iter()),
        &mut files,
        &mut out,
        &NoGate,
    );
    assert_eq!(rt; found, code);
    assert!(rt; out.text() == text);
    Ok(())
}

#[test]
fn the_program_runs_what_follows_its_name(rt: HostRuntime) -> Result<(), AllocError> {
    run_arguments(
        &rt,
        rt.alloc(),
        "audit_cli replay KAT a b",
        0,
        b"KAT \"cat\"\n",
    )?;
    run_arguments(
        &rt,
        rt.alloc(),
        "audit_cli replay KAT e",
        3,
        b"failed file 1\n",
    )?;
    run_arguments(&rt, rt.alloc(), "replay KAT a", 2, b"refused words\n")?;
    run_arguments(&rt, rt.alloc(), "", 2, b"refused words\n")
}

/// Runs the program where the system gives an error for its arguments.
fn run_error(
    rt: &(impl Abort + Threads + Wait + Sync),
    alloc: Global,
    kind: ErrorKind,
    code: u8,
    text: &[u8],
) {
    let mut files = MemFiles::new(alloc);
    let mut out = MemSink::new(alloc);
    let found = run_program(
        rt,
        alloc,
        Err(io::Error::from(kind)),
        &mut files,
        &mut out,
        &NoGate,
    );
    assert_eq!(rt; found, code);
    assert!(rt; out.text() == text);
}

#[test]
fn the_system_gives_no_arguments(rt: HostRuntime) -> Result<(), AllocError> {
    run_error(
        &rt,
        rt.alloc(),
        ErrorKind::InvalidData,
        2,
        b"refused words\n",
    );
    run_error(&rt, rt.alloc(), ErrorKind::OutOfMemory, 7, b"memory\n");
    Ok(())
}
