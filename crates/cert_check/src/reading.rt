//! The next line of a certificate, where there has to be one.

ghost use Rattle.std.specs.Prelude.{◌≡◌, IfOk, IfErr, IfSome};
ghost use Rattle.certificate.specs.Readers.{GivesLine, OnlyTakes, ahead, room};
ghost use Rattle.cert_check.specs.Verdicts.{is_check_failed};
ghost use Rattle.cert_check.specs.Reading.{BeginsWithout};

use crate::faults::CheckFault;
use certificate::{CertFault, CertLine, CertReader};
use outside::Files;
use report::Why;

/// The next line. At the end of the file its form is bad.
pub fn required_line<F: Files>(
    files: &mut F,
    reader: &mut CertReader,
) -> Result<CertLine, CheckFault>
    ensures line { IfOk result (λ line. GivesLine line reader.old reader.new
        (ahead reader.old (F.view files.old)) (ahead reader.new (F.view files.new))) }
    ensures limit { reader.new.limit ≡ reader.old.limit }
    ensures none { IfErr result (λ fault. IfSome (ahead reader.old (F.view files.old))
        (λ bytes. BeginsWithout (room reader.old) reader.old.lines bytes fault)) }
    ensures takes { OnlyTakes (is_check_failed result) (F.view files.old) (F.view files.new) }
{
    let line = reader.lines() + 1;
    match reader.line(files) {
        Ok(Some(line)) => Ok(line),
        Ok(None) => Err(CheckFault::Rejected {
            line,
            why: Why::Form,
        }),
        Err(CertFault::Bad { line }) => Err(CheckFault::Rejected {
            line,
            why: Why::Form,
        }),
        Err(CertFault::Failed) => Err(CheckFault::Failed),
        Err(CertFault::TooLong) => Err(CheckFault::TooLong),
        Err(CertFault::Memory) => Err(CheckFault::Memory),
    }
}
