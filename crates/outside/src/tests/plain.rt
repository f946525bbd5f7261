//! The objects that never fail.

use crate::{Files, PlainFiles, PlainSink, ReadFault, read_all, write_all, write_all_file};
use std::alloc::Global;
use std::process::Abort;
use std::test::Fail;

/// A file that is there from the start, and one that is written in two pieces.
fn two_files(rt: &impl Abort, alloc: Global) -> Result<PlainFiles, Fail> {
    let mut files = PlainFiles::new(alloc);
    files.add("three", b"abc")?;
    files.begin("written")?;
    write_all_file(&mut files, b"one")?;
    write_all_file(&mut files, b" two")?;
    assert!(rt; files.end().is_ok());
    Ok(files)
}

/// What a file is read as, or that it is too long.
fn check_read(
    rt: &impl Abort,
    alloc: Global,
    files: &mut PlainFiles,
    name: &str,
    limit: u32,
    want: Option<&[u8]>,
) {
    match read_all(alloc, files, name, limit as u64) {
        Ok(bytes) => assert_eq!(rt; Some(bytes.as_slice()), want),
        Err(fault) => {
            assert_eq!(rt; fault, ReadFault::TooLong, "{name}");
            assert_eq!(rt; want, None, "{name}");
        }
    }
}

#[test]
fn reads_and_writes_files(rt: HostRuntime) -> Result<(), Fail> {
    let mut files = two_files(&rt, rt.alloc())?;
    for (name, limit, want) in [
        ("three", 3, Some(b"abc".as_slice())),
        ("three", 2, None),
        ("written", 8, Some(b"one two")),
        ("missing", 0, Some(b"")),
    ] {
        check_read(&rt, rt.alloc(), &mut files, name, limit, want);
    }
    Ok(())
}

#[test]
fn writes_text(rt: HostRuntime) -> Result<(), Fail> {
    let mut sink = PlainSink::new(rt.alloc());
    write_all(&mut sink, b"one")?;
    write_all(&mut sink, b" two")?;
    assert_eq!(rt; sink.text(), b"one two".as_slice());
    Ok(())
}
