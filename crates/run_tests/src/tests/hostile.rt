//! Dictionaries that somebody made to break the program.

use crate::tests::rows::{check_rows, repeated, run_line};
use audit_top::Status;
use outside::{MemFiles, MemSink};
use std::alloc::{AllocError, Global};
use std::marker::Sync;
use std::process::Abort;
use std::sync::Wait;
use std::thread::Threads;

const HOSTILE: &str = r#"audit 1 d.json|d.json={"KAT": "cat"} x|4|refused file 1 not json
audit 1 d.json|d.json={"KAT": {"a": 1}}|4|refused file 1 not text "KAT"
audit 1 d.json|d.json={"TEL": 1, "KAT": 2}|4|refused file 1 not text "KAT"
audit 1 d.json|d.json={"\u0000": "x", "S": "\u0007\"\\"}|0|entries 1;skipped 1;folded 0;strokes 1;states 3;rounds 2;conflicts 0;skipped-key 1 "\x00"
replay S d.json|d.json={"\u0000": "x", "S": "\u0007\"\\"}|0|S "\x07\"\\""#;

#[test]
fn hostile_files(rt: HostRuntime) -> Result<(), AllocError> {
    check_rows(&rt, rt.alloc(), HOSTILE)
}

/// Runs an audit over a file of these bytes, whose output is one line.
fn check_bytes(
    rt: &(impl Abort + Threads + Wait + Sync),
    alloc: Global,
    bytes: &[u8],
    status: Status,
    line: &[u8],
) -> Result<(), AllocError> {
    let mut files = MemFiles::new(alloc);
    files.add("d.json", bytes)?;
    let mut out = MemSink::new(alloc);
    let found = run_line(rt, alloc, "audit 1 d.json", &mut files, &mut out)?;
    assert_eq!(rt; found, status);
    assert!(rt; out.text() == line);
    Ok(())
}

#[test]
fn a_byte_that_is_no_text(rt: HostRuntime) -> Result<(), AllocError> {
    let line = b"refused file 1 not json\n";
    check_bytes(&rt, rt.alloc(), &[0xFF], Status::Refused, line)
}

#[test]
fn two_hundred_brackets(rt: HostRuntime) -> Result<(), AllocError> {
    let line = b"refused file 1 not json\n";
    check_bytes(&rt, rt.alloc(), &[b'['; 200], Status::Refused, line)
}

#[test]
fn one_byte_over_the_limit(rt: HostRuntime) -> Result<(), AllocError> {
    let bytes = vec![in rt.alloc(); b' '; 67_108_865]?;
    let line = b"limit bytes file 1\n";
    check_bytes(&rt, rt.alloc(), &bytes, Status::Limit, line)
}

/// A key of 64 strokes (`~`) is read, and one of 65 (`^`) is refused after each value that is no text. A key with an
/// unreadable part is skipped, however many parts it has.
const LONG_KEYS: &str = r#"replay ~ d|d={"~": "x"}|0|~ "x"
replay S d|d={"^": "x"}|5|limit outline file 1 "^" 65
audit 1 d|d={"KAT": 1, "^": "x"}|4|refused file 1 not text "KAT"
audit 1 d|d={"~/UE": "x"}|0|entries 0;skipped 1;folded 0;strokes 0;states 1;rounds 1;conflicts 0;skipped-key 1 "~/UE""#;

#[test]
fn long_keys(rt: HostRuntime) -> Result<(), AllocError> {
    let alloc = rt.alloc();
    let longest = repeated(alloc, 64)?;
    let longer = repeated(alloc, 65)?;
    let rows = LONG_KEYS.replace(alloc, '~', &longest)?;
    let rows = rows.replace(alloc, '^', &longer)?;
    check_rows(&rt, alloc, &rows)
}
