//! The reading of a whole certificate.

ghost use Rattle.std.specs.Prelude.{◌≡◌, ◌≤◌, All, IfErr, IfOk, IfSome, OnOk, length};
ghost use Rattle.certificate.specs.Readers.{IsOpened, OnlyTakes, OpensFile, ahead, certificate_limit, new_reader};
ghost use Rattle.certificate.specs.Writers.{HasWord};
ghost use Rattle.cert_check.specs.Reading.{IsUntold, WhereTold};
ghost use Rattle.cert_check.specs.Verdicts.{is_check_failed, IsFaultOf};
ghost use Rattle.cert_upgrade.specs.Forms.{upgrade_limit, upgrade_outcome};
ghost use Rattle.audit_certificate.specs.Written.{lines_text};
ghost use Rattle.cert_upgrade.specs.inside.Stages.{IsWholeRead};

use crate::rows::{read_end, read_rows};
use crate::top::read_upper;
use cert_check::CheckFault;
use certificate::{CertFault, CertLine, CertReader};
use outside::Files;
use std::alloc::Global;

/// The most bytes of a certificate that is upgraded.
const LIMIT: u64 = 1_073_741_824;

/// Begins to read the certificate.
fn begin<F: Files>(alloc: Global, files: &mut F, name: &str) -> Result<CertReader, CheckFault>
    ensures reader { IfOk result (λ reader. reader ≡ new_reader upgrade_limit) }
    ensures opened { OnOk result (IsOpened name.now (F.view files.old) (F.view files.new)) }
    ensures opens { OpensFile name.now (is_check_failed result)
        (F.view files.old) (F.view files.new) }
    ensures fault { IfErr result IsUntold }
{
    match CertReader::begin_within(alloc, files, name, LIMIT) {
        Ok(reader) => Ok(reader),
        Err(CertFault::Failed) => Err(CheckFault::Failed),
        Err(_) => Err(CheckFault::Memory),
    }
}

/// The lines of the new certificate, of what a reader reads from its begin on, and how many conflicts there are.
fn read_lines<F: Files>(
    alloc: Global,
    files: &mut F,
    reader: &mut CertReader,
) -> Result<(Vec<CertLine>, u32), CheckFault>
    requires begun { reader.old ≡ new_reader upgrade_limit }
    ensures read { IfOk result (λ r. WhereTold (ahead reader.old (F.view files.old))
        (λ bytes. IsWholeRead bytes r.0.items r.1)) }
    ensures words { IfOk result (λ r. All HasWord r.0.items) }
    ensures size { IfOk result (λ r. length (lines_text r.0.items) ≤ certificate_limit) }
    ensures fault { IfErr result (λ fault. WhereTold (ahead reader.old (F.view files.old))
        (λ bytes. IsFaultOf (upgrade_outcome bytes) fault)) }
    ensures takes { OnlyTakes (is_check_failed result) (F.view files.old) (F.view files.new) }
{
    let (mut upper, conflicts) = match read_upper(alloc, files, reader) {
        Ok(read) => read,
        Err(fault) => return Err(fault),
    };
    if let Err(fault) = read_rows(files, reader, conflicts, &mut upper.lines) {
        return Err(fault);
    }
    if let Err(fault) = read_end(files, reader) {
        return Err(fault);
    }
    match upper.lines.push(CertLine::End) {
        Ok(()) => Ok((upper.lines, conflicts)),
        Err(_) => Err(CheckFault::Memory),
    }
}

/// The lines of the new certificate, and how many conflicts there are.
pub(crate) fn read<F: Files>(
    alloc: Global,
    files: &mut F,
    name: &str,
) -> Result<(Vec<CertLine>, u32), CheckFault>
    ensures read { IfOk result (λ r. IfSome (F.view files.old).held (λ held.
        IsWholeRead (held name.now) r.0.items r.1)) }
    ensures words { IfOk result (λ r. All HasWord r.0.items) }
    ensures size { IfOk result (λ r. length (lines_text r.0.items) ≤ certificate_limit) }
    ensures fault { IfErr result (λ fault. IfSome (F.view files.old).held (λ held.
        IsFaultOf (upgrade_outcome (held name.now)) fault)) }
    ensures opens { OpensFile name.now (is_check_failed result)
        (F.view files.old) (F.view files.new) }
{
    let mut reader = match begin(alloc, files, name) {
        Ok(reader) => reader,
        Err(fault) => return Err(fault),
    };
    read_lines(alloc, files, &mut reader)
}
