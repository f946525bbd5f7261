//! Each call of the files, and each put of the output, fails in turn.

use crate::tests::certificates::{OUT_OF_STEP, VERSION_1, VERSION_2};
use crate::tests::rows::{cut, files_of, lines_of, run_line};
use audit_top::Status;
use outside::{MemFiles, MemSink};
use std::alloc::{AllocError, Global};
use std::marker::Sync;
use std::process::Abort;
use std::sync::Wait;
use std::thread::Threads;

/// One number in a list.
fn only(alloc: Global, call: u64) -> Result<Vec<u64>, AllocError> {
    let mut calls = Vec::new(alloc);
    calls.push(call)?;
    Ok(calls)
}

pub(crate) const THREE: &str = r#"a={"KAT": "cat"};b={"KAT": "feline"};d={"S": "s"}"#;

/// Runs a line over files whose call of this number fails.
fn check_failing_call(
    rt: &(impl Abort + Threads + Wait + Sync),
    alloc: Global,
    line: &str,
    call: u64,
    status: Status,
    want: &[u8],
) -> Result<(), AllocError> {
    let mut files = files_of(alloc, THREE)?;
    files.fail_at(only(alloc, call)?);
    let mut out = MemSink::new(alloc);
    let found = run_line(rt, alloc, line, &mut files, &mut out)?;
    assert_eq!(rt; found, status, "at {call}");
    assert!(rt; out.text() == want, "at {call}");
    Ok(())
}

/// Three dictionaries, each opened, read and read to its end.
fn check_failing_file(
    rt: &(impl Abort + Threads + Wait + Sync),
    alloc: Global,
    call: u64,
    want: &[u8],
) -> Result<(), AllocError> {
    check_failing_call(rt, alloc, "replay S a match:b d", call, Status::File, want)
}

#[test]
fn each_call_of_the_files_fails(rt: HostRuntime) -> Result<(), AllocError> {
    for call in 0..3 {
        check_failing_file(&rt, rt.alloc(), call, b"failed file 1\n")?;
        check_failing_file(&rt, rt.alloc(), call + 3, b"failed file 2\n")?;
        check_failing_file(&rt, rt.alloc(), call + 6, b"failed file 3\n")?;
    }
    Ok(())
}

/// The first call of the files would fail, so this shows that there is none.
#[test]
fn seventeen_dictionaries_open_no_file(rt: HostRuntime) -> Result<(), AllocError> {
    let line = "replay S d d d d d d d d d d d d d d d d d";
    let want = b"limit dictionaries 17\n";
    check_failing_call(&rt, rt.alloc(), line, 0, Status::Limit, want)
}

/// Dictionaries: `d` is out of step, with its certificate in version 2 and, in `o`, in version 1; `u` is the usual
/// case; `k` has a longer entry that its others merge into.
fn with_certificates(alloc: Global) -> Result<MemFiles, AllocError> {
    let mut files = files_of(alloc, OUT_OF_STEP)?;
    files.add("c", VERSION_2.as_bytes())?;
    files.add("o", VERSION_1.as_bytes())?;
    files.add(
        "u",
        br#"{"KAT": "cat", "TEL": "tell", "KAT/TEL": "cattle"}"#,
    )?;
    files.add("k", br#"{"S": "s", "T": "t", "K": "k", "S/T/K": "stick"}"#)?;
    Ok(files)
}

/// Whether the text begins with the bytes of the named file, if it is held.
fn holds_prefix(files: &MemFiles, name: &str, text: &str) -> bool {
    match files.bytes(name) {
        None => true,
        Some(bytes) => text.as_bytes().starts_with(bytes),
    }
}

/// Runs a line over files whose call of this number fails, and returns whether it was made. The first `dictionary`
/// calls read the dictionary, and the others a certificate. A file `n` that is written holds a prefix of version 2.
fn fails_at(
    rt: &(impl Abort + Threads + Wait + Sync),
    alloc: Global,
    line: &str,
    dictionary: u64,
    call: u64,
) -> Result<bool, AllocError> {
    let mut files = with_certificates(alloc)?;
    files.fail_at(only(alloc, call)?);
    let mut out = MemSink::new(alloc);
    let found = run_line(rt, alloc, line, &mut files, &mut out)?;
    assert!(rt; holds_prefix(&files, "n", VERSION_2), "{line} at {call}");
    if found != Status::File {
        assert!(rt;
            found == Status::Clean || found == Status::Conflicts,
            "{line}"
        );
        return Ok(false);
    }
    let want = if call < dictionary {
        "failed file 1\n"
    } else {
        "failed certificate\n"
    };
    assert!(rt; out.text() == want.as_bytes(), "{line} at {call}");
    Ok(true)
}

/// Each call of the files fails in turn, until a run ends without a fault. There are `calls` of them or more.
fn check_failing_calls(
    rt: &(impl Abort + Threads + Wait + Sync),
    alloc: Global,
    line: &str,
    dictionary: u64,
    calls: u64,
) -> Result<(), AllocError> {
    for call in 0..100 {
        if !fails_at(rt, alloc, line, dictionary, call)? {
            assert!(rt; call >= calls, "{line} ends at {call}");
            return Ok(());
        }
    }
    panic!(rt; "{line} fails at each call")
}

/// A dictionary has three calls: it is opened, taken and found to have ended. A certificate has as many where it is
/// read, and where it is written it is begun, put in one piece or more and ended.
#[test]
fn each_call_of_a_command_fails(rt: HostRuntime) -> Result<(), AllocError> {
    check_failing_calls(&rt, rt.alloc(), "audit 2 u", 3, 3)?;
    check_failing_calls(&rt, rt.alloc(), "replay S/T/K k", 3, 3)?;
    check_failing_calls(&rt, rt.alloc(), "audit-generated 7 2 2", 0, 0)?;
    check_failing_calls(&rt, rt.alloc(), "audit-to n 2 d", 3, 6)?;
    check_failing_calls(&rt, rt.alloc(), "check c d", 3, 5)?;
    check_failing_calls(&rt, rt.alloc(), "check o d", 3, 5)?;
    check_failing_calls(&rt, rt.alloc(), "upgrade o n", 0, 5)
}

/// Runs a line over an output whose call of this number fails, and returns whether it was made. The output holds a
/// prefix of what the line puts without a fault.
fn output_fails_at(
    rt: &(impl Abort + Threads + Wait + Sync),
    alloc: Global,
    line: &str,
    whole: &[u8],
    call: u64,
) -> Result<bool, AllocError> {
    let mut files = with_certificates(alloc)?;
    let mut out = MemSink::new(alloc);
    out.fail_at(only(alloc, call)?);
    let found = run_line(rt, alloc, line, &mut files, &mut out)?;
    assert!(rt; whole.starts_with(out.text()), "{line} at {call}");
    if found == Status::Output {
        return Ok(true);
    }
    assert!(rt; out.text() == whole, "{line} at {call}");
    Ok(false)
}

/// Each put of the output fails in turn, until a run ends without a fault.
fn check_failing_puts(
    rt: &(impl Abort + Threads + Wait + Sync),
    alloc: Global,
    line: &str,
    whole: &str,
) -> Result<(), AllocError> {
    let whole = lines_of(alloc, whole)?;
    for call in 0..100 {
        if !output_fails_at(rt, alloc, line, whole.as_bytes(), call)? {
            assert!(rt; call >= 1, "{line} puts nothing");
            return Ok(());
        }
    }
    panic!(rt; "{line} fails at each put")
}

/// A line and its output.
const PUTS: &str =
    r#"audit 2 u|entries 3;skipped 0;folded 0;strokes 2;states 9;rounds 3;conflicts 1;conflict KAT/TEL place 1 strokes 2;words KAT | TEL;shows "cattle"
replay S/T/K k|S/T/K "stick"
replay S|refused words
replay S e|failed file 1
generate 7 2|{;"TPAFRPB/SKWRAOBG/KAER": "w0",;"SAOPL/AOBG": "w1";}
audit-generated 7 2 2|entries 2;skipped 0;folded 0;strokes 5;states 8;rounds 4;conflicts 0;relaxed 7
audit-to n 2 d|entries 5;skipped 0;folded 0;strokes 5;states 21;rounds 6;conflicts 1;conflict P/W place 1 strokes 5;words S | T/K/P | W;shows "ist" | K | "pw"
check c d|accepted conflicts 1
check n d|failed certificate
upgrade o n|upgraded conflicts 1"#;

#[test]
fn each_put_fails(rt: HostRuntime) -> Result<(), AllocError> {
    for row in PUTS.lines() {
        let (line, whole) = cut(&rt, row);
        check_failing_puts(&rt, rt.alloc(), line, whole)?;
    }
    Ok(())
}
