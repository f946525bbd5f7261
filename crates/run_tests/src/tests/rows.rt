//! Rows, and how they are run.
//!
//! A row is a run: its arguments, its files, its status and its output, with `|` between them. Arguments stand with a
//! space between two, files as `name=text` and lines of the output with `;` between two.

ghost use Rattle.std.specs.Prelude.{◌<◌, ◌^◌, All, IsTrue, string_len};

use audit_top::{Status, run};
use outside::{Files, MemFiles, MemSink, Sink};
use std::alloc::{AllocError, Global};
use std::marker::Sync;
use std::process::Abort;
use std::sync::Wait;
use std::thread::Threads;
use steal_rounds::NoGate;

/// The arguments of a command line.
pub(crate) fn arguments_of(alloc: Global, line: &str) -> Result<Vec<String>, AllocError> {
    let mut args = Vec::new(alloc);
    if line.is_empty() {
        return Ok(args);
    }
    for arg in line.split(' ') {
        args.push(String::from_str(alloc, arg)?)?;
    }
    Ok(args)
}

/// Whether each argument has fewer than 2^32 bytes.
pub(crate) fn are_short(args: &[String]) -> bool
    ensures { IsTrue result → All (λ arg. string_len arg < 2 ^ 32) args.now }
{
    args.iter().all(|arg| arg.len() < 1 << 32)
}

/// Runs the arguments.
pub(crate) fn run_line(
    rt: &(impl Abort + Threads + Wait + Sync),
    alloc: Global,
    line: &str,
    files: &mut impl Files,
    out: &mut impl Sink,
) -> Result<Status, AllocError> {
    let args = arguments_of(alloc, line)?;
    assert!(rt; are_short(&args));
    Ok(run(rt, alloc, &args, files, out, &NoGate))
}

/// The files of these names and texts.
pub(crate) fn files_of(alloc: Global, held: &str) -> Result<MemFiles, AllocError> {
    let mut files = MemFiles::new(alloc);
    for file in held.split(';') {
        if let Some((name, text)) = file.split_once('=') {
            files.add(name, text.as_bytes())?;
        }
    }
    Ok(files)
}

/// The lines that stand with `;` between two.
pub(crate) fn lines_of(alloc: Global, lines: &str) -> Result<String, AllocError> {
    let mut text = String::new(alloc);
    for line in lines.split(';') {
        text.push_str(line)?;
        text.push('\n')?;
    }
    Ok(text)
}

/// The parts of a row before its first bar and behind it.
pub(crate) fn cut<'a>(rt: &impl Abort, row: &'a str) -> (&'a str, &'a str) {
    row.split_once('|').expect(rt, "a bar in each row")
}

/// Runs a row, and returns the files as they are afterwards.
pub(crate) fn run_row(
    rt: &(impl Abort + Threads + Wait + Sync),
    alloc: Global,
    row: &str,
) -> Result<MemFiles, AllocError> {
    let (line, rest) = cut(rt, row);
    let (held, rest) = cut(rt, rest);
    let (code, lines) = cut(rt, rest);
    let mut files = files_of(alloc, held)?;
    let mut out = MemSink::new(alloc);
    let found = run_line(rt, alloc, line, &mut files, &mut out)?;
    assert!(rt;
        code.as_bytes() == [found.code() + b'0'].as_slice(),
        "{row}"
    );
    let want = lines_of(alloc, lines)?;
    assert!(rt; out.text() == want.as_bytes(), "{row}");
    Ok(files)
}

/// Runs a row.
pub(crate) fn check_row(
    rt: &(impl Abort + Threads + Wait + Sync),
    alloc: Global,
    row: &str,
) -> Result<(), AllocError> {
    run_row(rt, alloc, row)?;
    Ok(())
}

/// Runs each row of a table.
pub(crate) fn check_rows(
    rt: &(impl Abort + Threads + Wait + Sync),
    alloc: Global,
    table: &str,
) -> Result<(), AllocError> {
    for row in table.lines() {
        check_row(rt, alloc, row)?;
    }
    Ok(())
}

/// `S`, so many times with a slash between each two.
pub(crate) fn repeated(alloc: Global, count: usize) -> Result<String, AllocError> {
    let mut all = String::from_str(alloc, "S")?;
    for _ in 1..count {
        all.push_str("/S")?;
    }
    Ok(all)
}
