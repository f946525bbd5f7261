//! The rows of a certificate, and its end.

ghost use Rattle.std.specs.Prelude.{ℕ, List, ◌≡◌, ◌+◌, ◌≤◌, ◌∷◌, ◌++◌, [], IfOk, IfErr, OnOk, Some};
ghost use Rattle.certificate.specs.declared.lines.CertLine.{CertLine as Line};
ghost use Rattle.certificate.specs.declared.lines.CertLine.TheVariants as of;
ghost use Rattle.certificate.specs.Readers.{OnlyTakes, ahead};
ghost use Rattle.certificate_laws.specs.Checks.{is_row_line};
ghost use Rattle.cert_check.specs.Verdicts.{is_check_failed, IsFaultOf};
ghost use Rattle.cert_upgrade.specs.Forms.{upgrade_limit, upgrade_outcome};
ghost use Rattle.cert_upgrade.specs.inside.Stages.{AreRowsRead, AreWritable, IsWholeRead};

use cert_check::{CheckFault, required_line};
use certificate::{CertFault, CertLine, CertReader};
use outside::Files;
use report::Why;

/// Whether the line is a row.
fn is_row(line: &CertLine) -> bool
    ensures { result ≡ is_row_line (Some line.now) }
{
    match line {
        CertLine::Row { .. } => true,
        CertLine::Head { .. }
        | CertLine::Entries { .. }
        | CertLine::States { .. }
        | CertLine::Distance { .. }
        | CertLine::Run { .. }
        | CertLine::Conflicts { .. }
        | CertLine::End => false,
    }
}

/// Reads a row and adds it to the lines.
fn read_row<F: Files>(
    files: &mut F,
    reader: &mut CertReader,
    lines: &mut Vec<CertLine>,
) -> Result<(), CheckFault>
    requires limit { reader.old.limit ≡ upgrade_limit }
    ensures read { OnOk result ((bytes : List ℕ) (n left : ℕ)
        → AreRowsRead bytes reader.old.given lines.old.items n (left + 1) reader.old.lines
        (ahead reader.old (F.view files.old))
        → AreRowsRead bytes reader.new.given lines.new.items n left reader.new.lines
        (ahead reader.new (F.view files.new))) }
    ensures writable { OnOk result (AreWritable reader.old.given lines.old.items
        → AreWritable reader.new.given lines.new.items) }
    ensures limit { reader.new.limit ≡ reader.old.limit }
    ensures err { IfErr result (λ fault. (bytes : List ℕ) (n left : ℕ)
        → AreRowsRead bytes reader.old.given lines.old.items n (left + 1) reader.old.lines
        (ahead reader.old (F.view files.old))
        → IsFaultOf (upgrade_outcome bytes) fault) }
    ensures takes { OnlyTakes (is_check_failed result) (F.view files.old) (F.view files.new) }
{
    let line = match required_line(files, reader) {
        Ok(line) => line,
        Err(fault) => return Err(fault),
    };
    if !is_row(&line) {
        return Err(CheckFault::Rejected {
            line: reader.lines(),
            why: Why::Form,
        });
    }
    match lines.push(line) {
        Ok(()) => Ok(()),
        Err(_) => Err(CheckFault::Memory),
    }
}

/// Reads so many rows and adds them to the lines.
pub(crate) fn read_rows<F: Files>(
    files: &mut F,
    reader: &mut CertReader,
    count: u32,
    lines: &mut Vec<CertLine>,
) -> Result<(), CheckFault>
    requires limit { reader.old.limit ≡ upgrade_limit }
    ensures read { OnOk result ((bytes : List ℕ)
        → AreRowsRead bytes reader.old.given lines.old.items count count reader.old.lines
        (ahead reader.old (F.view files.old))
        → AreRowsRead bytes reader.new.given lines.new.items count 0 reader.new.lines
        (ahead reader.new (F.view files.new))) }
    ensures writable { OnOk result (AreWritable reader.old.given lines.old.items
        → AreWritable reader.new.given lines.new.items) }
    ensures limit { reader.new.limit ≡ reader.old.limit }
    ensures err { IfErr result (λ fault. (bytes : List ℕ)
        → AreRowsRead bytes reader.old.given lines.old.items count count reader.old.lines
        (ahead reader.old (F.view files.old))
        → IsFaultOf (upgrade_outcome bytes) fault) }
    ensures takes { OnlyTakes (is_check_failed result) (F.view files.old) (F.view files.new) }
{
    for row in 0..count {
        match read_row(files, reader, lines) {
            Ok(()) => {}
            Err(fault) => return Err(fault),
        }
    }
    Ok(())
}

/// Reads the end, behind which there is nothing.
pub(crate) fn read_end<F: Files>(files: &mut F, reader: &mut CertReader) -> Result<(), CheckFault>
    requires limit { reader.old.limit ≡ upgrade_limit }
    ensures read { OnOk result ((bytes : List ℕ) (lines : List Line) (n : ℕ)
        → AreRowsRead bytes reader.old.given lines n 0 reader.old.lines
        (ahead reader.old (F.view files.old))
        → IsWholeRead bytes (lines ++ of.End ∷ []) n) }
    ensures err { IfErr result (λ fault. (bytes : List ℕ) (lines : List Line) (n : ℕ)
        → AreRowsRead bytes reader.old.given lines n 0 reader.old.lines
        (ahead reader.old (F.view files.old))
        → IsFaultOf (upgrade_outcome bytes) fault) }
    ensures long { OnOk result (reader.old.given + 4 ≤ upgrade_limit) }
    ensures takes { OnlyTakes (is_check_failed result) (F.view files.old) (F.view files.new) }
{
    let line = match required_line(files, reader) {
        Ok(line) => line,
        Err(fault) => return Err(fault),
    };
    let CertLine::End = line else {
        return Err(CheckFault::Rejected {
            line: reader.lines(),
            why: Why::Form,
        });
    };
    let next = reader.lines() + 1;
    match reader.line(files) {
        Ok(None) => Ok(()),
        Ok(Some(_)) => Err(CheckFault::Rejected {
            line: next,
            why: Why::Rest,
        }),
        Err(CertFault::Bad { .. }) => Err(CheckFault::Rejected {
            line: next,
            why: Why::Rest,
        }),
        Err(CertFault::Failed) => Err(CheckFault::Failed),
        Err(CertFault::TooLong) => Err(CheckFault::TooLong),
        Err(CertFault::Memory) => Err(CheckFault::Memory),
    }
}
