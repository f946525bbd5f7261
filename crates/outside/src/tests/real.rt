//! What the system does with real files and with the standard output.

use crate::{
    Files, OutsideFault, ReadFault, RealFiles, RealSink, read_all, write_all, write_all_file,
};
use std::alloc::Global;
use std::path::PathBuf;
use std::process::Abort;
use std::rt::Files as System;
use std::test::Fail;
use std::{env, fs, process};

/// A folder of this test's own.
fn new_folder(rt: &HostRuntime) -> Result<PathBuf, Fail> {
    let name = format!(in rt.alloc(); "outside-test-{}", process::id(rt.process()))?;
    let folder = env::temp_dir(rt)?.join(rt.alloc(), name.as_str())?;
    fs::create_dir_all(rt, folder.as_path())?;
    Ok(folder)
}

/// Writes a file, whose content has `len` bytes, and reads it back.
fn copies(rt: &impl System, alloc: Global, path: &str, len: u32) -> Result<bool, Fail> {
    let mut bytes: Vec<u8> = Vec::new(alloc);
    for i in 0..len {
        bytes.push((i % 251) as u8)?;
    }
    let mut files = RealFiles::new(rt, alloc);
    files.begin(path)?;
    write_all_file(&mut files, &bytes)?;
    let ended = files.end().is_ok();
    let read = read_all(alloc, &mut files, path, len as u64)?;
    Ok(ended && read.as_slice() == bytes.as_slice())
}

/// The fault at reading a file.
fn read_fault(rt: &impl System, alloc: Global, path: &str, limit: u32) -> Option<ReadFault> {
    let mut files = RealFiles::new(rt, alloc);
    read_all(alloc, &mut files, path, limit as u64).err()
}

/// Writes three bytes to a file.
fn write_three<F: Files>(files: &mut F, path: &str) -> Result<(), OutsideFault> {
    files.begin(path)?;
    write_all_file(files, b"one")?;
    match files.end() {
        Ok(()) => Ok(()),
        Err(_) => Err(OutsideFault::Failed),
    }
}

/// The fault at writing three bytes to a file.
fn write_fault(rt: &impl System, alloc: Global, path: &str) -> Option<OutsideFault> {
    let mut files = RealFiles::new(rt, alloc);
    write_three(&mut files, path).err()
}

/// Files of these lengths are written and read back.
fn check_copies(rt: &(impl Abort + System), alloc: Global, path: &str) -> Result<(), Fail> {
    for len in [0, 1, 65_536, 5_000_000] {
        assert!(rt; copies(rt, alloc, path, len)?, "{len} bytes");
    }
    Ok(())
}

/// Which files can't be read, after one of 5,000,000 bytes was written.
fn check_reads(rt: &(impl Abort + System), alloc: Global, file: &str, missing: &str, folder: &str) {
    for (path, limit, fault) in [
        (file, 5_000_000, None),
        (file, 4_999_999, Some(ReadFault::TooLong)),
        (missing, 9, Some(ReadFault::Failed)),
        (folder, 9, Some(ReadFault::Failed)),
    ] {
        assert_eq!(rt; read_fault(rt, alloc, path, limit), fault, "{path}");
    }
}

/// Which files can't be written.
fn check_writes<'a>(
    rt: &(impl Abort + System),
    alloc: Global,
    file: &'a str,
    in_missing: &'a str,
    folder: &'a str,
) {
    for (path, fault) in [
        (file, None),
        ("/dev/null", None),
        ("/dev/full", Some(OutsideFault::Failed)),
        (in_missing, Some(OutsideFault::Failed)),
        (folder, Some(OutsideFault::Failed)),
    ] {
        assert_eq!(rt; write_fault(rt, alloc, path), fault, "{path}");
    }
}

/// What the system does with the files in a folder.
fn check_folder(rt: &(impl Abort + System), alloc: Global, folder: &str) -> Result<(), Fail> {
    let file = format!(in alloc; "{folder}/file")?;
    let missing = format!(in alloc; "{folder}/missing")?;
    let in_missing = format!(in alloc; "{missing}/file")?;
    check_copies(rt, alloc, &file)?;
    check_reads(rt, alloc, &file, &missing, folder);
    check_writes(rt, alloc, &file, &in_missing, folder);
    Ok(())
}

#[test]
fn real_files(rt: HostRuntime) -> Result<(), Fail> {
    let folder = new_folder(&rt)?;
    check_folder(&rt, rt.alloc(), folder.as_str())?;
    fs::remove_dir_all(&rt, folder.as_path())?;
    Ok(())
}

#[test]
fn the_standard_output_takes_text(rt: HostRuntime) -> Result<(), Fail> {
    let mut sink = RealSink::new(&rt);
    write_all(&mut sink, b"one line\n")?;
    Ok(())
}
