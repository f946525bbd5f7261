//! The writing of a certificate that fits.

ghost use Rattle.std.specs.Prelude.{◌+◌, ◌≤◌, All, IfErr, IsSome, OnErr, OnOk, length};
ghost use Rattle.outside.specs.Files.{Both, Replaces};
ghost use Rattle.certificate.specs.CertLines.{line_text};
ghost use Rattle.certificate.specs.Readers.{certificate_limit};
ghost use Rattle.certificate.specs.Writers.{HasWord};
ghost use Rattle.cert_check.specs.Reading.{IsUntold};
ghost use Rattle.cert_check.specs.Verdicts.{is_check_failed};
ghost use Rattle.audit_certificate.specs.Written.{WritesFile, lines_text};
ghost use Rattle.cert_upgrade.specs.inside.Puts.{IsCutOff, PutsText};

use cert_check::CheckFault;
use certificate::{CertFault, CertLine, CertWriter};
use outside::Files;
use std::alloc::Global;

/// Adds a line, for which there is room.
fn write_line<F: Files>(
    writer: &mut CertWriter,
    files: &mut F,
    line: &CertLine,
) -> Result<(), CheckFault>
    requires writes { IsSome (F.view files.old).writing }
    requires word { HasWord line.now }
    requires room { writer.old + length (line_text line.now) ≤ certificate_limit }
    ensures { PutsText (line_text line.now) result writer.old writer.new
        (F.view files.old) (F.view files.new) }
{
    match writer.line(files, line) {
        Ok(()) => Ok(()),
        Err(CertFault::Failed) => Err(CheckFault::Failed),
        Err(CertFault::Memory) => Err(CheckFault::Memory),
        Err(CertFault::TooLong) => unreachable!(),
        Err(CertFault::Bad { .. }) => unreachable!(),
    }
}

/// Adds lines, for which there is room.
fn write_lines<F: Files>(
    writer: &mut CertWriter,
    files: &mut F,
    lines: &[CertLine],
) -> Result<(), CheckFault>
    requires writes { IsSome (F.view files.old).writing }
    requires words { All HasWord lines.now }
    requires room { writer.old + length (lines_text lines.now) ≤ certificate_limit }
    ensures { PutsText (lines_text lines.now) result writer.old writer.new
        (F.view files.old) (F.view files.new) }
{
    for line in lines {
        match write_line(writer, files, line) {
            Ok(()) => {}
            Err(fault) => return Err(fault),
        }
    }
    Ok(())
}

/// Writes the lines to the named file. No file is being written afterwards.
pub(crate) fn write<F: Files>(
    alloc: Global,
    files: &mut F,
    name: &str,
    lines: &[CertLine],
) -> Result<(), CheckFault>
    requires words { All HasWord lines.now }
    requires room { length (lines_text lines.now) ≤ certificate_limit }
    ensures whole { OnOk result (Both (Replaces name.now (lines_text lines.now))
        (F.view files.old).held (F.view files.new).held) }
    ensures cut { OnErr result (IsCutOff name.now (lines_text lines.now)
        (F.view files.old).held (F.view files.new).held) }
    ensures fault { IfErr result IsUntold }
    ensures writes { WritesFile name.now (is_check_failed result)
        (F.view files.old) (F.view files.new) }
{
    match CertWriter::begin(alloc, files, name) {
        Ok(mut writer) => {
            let written = write_lines(&mut writer, files, lines);
            match writer.end(files) {
                Ok(()) => written,
                Err(_) => Err(CheckFault::Failed),
            }
        }
        Err(CertFault::Failed) => Err(CheckFault::Failed),
        Err(_) => Err(CheckFault::Memory),
    }
}
