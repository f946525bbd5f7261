//! A file of lines that is read and written back line by line.

ghost use Rattle.std.specs.Prelude.{◌≤◌};
ghost use Rattle.certificate.specs.Readers.{certificate_limit};

use crate::{CertFault, CertReader, CertWriter};
use outside::{Files, MemFiles};
use std::alloc::Global;
use std::process::Abort;
use std::test::Fail;

/// Writes each line of the file "in" to the file "out", and answers how many they are.
pub(crate) fn copy<F: Files>(alloc: Global, files: &mut F, limit: u64) -> Result<u64, CertFault>
    requires { limit ≤ certificate_limit }
{
    let mut writer = CertWriter::begin(alloc, files, "out")?;
    let mut reader = CertReader::begin_within(alloc, files, "in", limit)?;
    for _ in 0..100 {
        let Some(line) = reader.line(files)? else {
            break;
        };
        writer.line(files, &line)?;
    }
    writer.end(files)?;
    Ok(reader.lines())
}

/// What copying a text within a limit answers. Where it's whole, the copy is the text.
pub(crate) fn check_copy(
    rt: &impl Abort,
    alloc: Global,
    text: &[u8],
    limit: u32,
    answer: Result<u64, CertFault>,
) -> Result<(), Fail> {
    let mut files = MemFiles::new(alloc);
    files.add("in", text)?;
    let given = copy(alloc, &mut files, u64::from(limit));
    assert_eq!(rt; given, answer);
    if given.is_ok() {
        assert_eq!(rt; files.bytes("out"), Some(text));
    }
    Ok(())
}
