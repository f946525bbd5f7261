//! Each call of a small run fails in turn.

use crate::{
    Files, MemFiles, MemSink, OutsideFault, ReadFault, read_all, write_all, write_all_file,
};
use std::alloc::Global;
use std::process::Abort;
use std::test::Fail;

/// The fault as one of reading.
fn as_read(fault: OutsideFault) -> ReadFault {
    match fault {
        OutsideFault::Failed => ReadFault::Failed,
        OutsideFault::Memory => ReadFault::Memory,
    }
}

/// Copies the file "in" to the file "out", and puts its bytes on the sink. The calls of the files have the numbers 0
/// (open), 1 (the first piece), 2 (the end), 3 (begin), 4 (put) and 5 (end).
fn copy(alloc: Global, files: &mut MemFiles, sink: &mut MemSink) -> Result<(), ReadFault> {
    let bytes = read_all(alloc, files, "in", 8)?;
    if let Err(fault) = files.begin("out") {
        return Err(as_read(fault));
    }
    if let Err(fault) = write_all_file(files, &bytes) {
        return Err(as_read(fault));
    }
    if files.end().is_err() {
        return Err(ReadFault::Failed);
    }
    match write_all(sink, &bytes) {
        Ok(()) => Ok(()),
        Err(fault) => Err(as_read(fault)),
    }
}

/// The files of each run, of which the call of this number fails.
fn files_failing_at(alloc: Global, call: u64) -> Result<MemFiles, Fail> {
    let mut files = MemFiles::new(alloc);
    files.add("in", b"wrong")?;
    files.add("in", b"abc")?;
    files.add("out", b"old")?;
    files.fail_at(vec![in alloc; call]?);
    Ok(files)
}

/// What the files hold after a run.
fn check_files(rt: &impl Abort, files: &MemFiles, out: &str) {
    assert_eq!(rt; files.bytes("in"), Some(b"abc".as_slice()));
    assert_eq!(rt; files.bytes("out"), Some(out.as_bytes()));
    assert_eq!(rt; files.bytes("other"), None);
}

/// A run in which these calls of the files and of the sink fail.
fn check_copy(
    rt: &impl Abort,
    alloc: Global,
    (file_call, sink_call): (u64, u64),
    answer: Result<(), ReadFault>,
    (out, told): (&str, &str),
) -> Result<(), Fail> {
    let mut files = files_failing_at(alloc, file_call)?;
    let mut sink = MemSink::new(alloc);
    sink.fail_at(vec![in alloc; sink_call]?);
    let given = copy(alloc, &mut files, &mut sink);
    assert_eq!(rt; given, answer, "calls {file_call} and {sink_call}");
    check_files(rt, &files, out);
    assert_eq!(rt; sink.text(), told.as_bytes());
    Ok(())
}

#[test]
fn each_call_fails_in_turn(rt: HostRuntime) -> Result<(), Fail> {
    let failed = Err(ReadFault::Failed);
    // the call of the files that fails, that of the sink, the answer, what "out" has then, and what the sink has
    for (file_call, sink_call, answer, out, told) in [
        (0, 9, failed, "old", ""),
        (1, 9, failed, "old", ""),
        (2, 9, failed, "old", ""),
        (3, 9, failed, "old", ""),
        (4, 9, failed, "", ""),
        (5, 9, failed, "abc", ""),
        (6, 0, failed, "abc", ""),
        (6, 9, Ok(()), "abc", "abc"),
    ] {
        check_copy(&rt, rt.alloc(), (file_call, sink_call), answer, (out, told))?;
    }
    Ok(())
}
