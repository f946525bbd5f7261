//! The reading down to the conflicts line.

ghost use Rattle.std.specs.Prelude.{◌≡◌, IfOk, IfErr};
ghost use Rattle.certificate.specs.Readers.{OnlyTakes, ahead, new_reader};
ghost use Rattle.cert_check.specs.Reading.{WhereTold};
ghost use Rattle.cert_check.specs.Verdicts.{is_check_failed, IsFaultOf};
ghost use Rattle.cert_upgrade.specs.Forms.{upgrade_limit, upgrade_outcome};
ghost use Rattle.cert_upgrade.specs.inside.Stages.{AreRowsRead, AreWritable};

use crate::upper::Upper;
use cert_check::{CheckFault, required_line};
use certificate::{CertLine, CertReader};
use outside::Files;
use std::alloc::Global;

/// Reads the lines down to the conflicts: the lines of the new certificate, and how many rows are announced.
pub(crate) fn read_upper<F: Files>(
    alloc: Global,
    files: &mut F,
    reader: &mut CertReader,
) -> Result<(Upper, u32), CheckFault>
    requires begun { reader.old ≡ new_reader upgrade_limit }
    ensures read { IfOk result (λ r. WhereTold (ahead reader.old (F.view files.old))
        (λ bytes. AreRowsRead bytes reader.new.given r.0.lines.items r.1 r.1 reader.new.lines
        (ahead reader.new (F.view files.new)))) }
    ensures writable { IfOk result (λ r. AreWritable reader.new.given r.0.lines.items) }
    ensures limit { reader.new.limit ≡ upgrade_limit }
    ensures err { IfErr result (λ fault. WhereTold (ahead reader.old (F.view files.old))
        (λ bytes. IsFaultOf (upgrade_outcome bytes) fault)) }
    ensures takes { OnlyTakes (is_check_failed result) (F.view files.old) (F.view files.new) }
{
    let mut upper = Upper::new(alloc);
    loop {
        let before = reader.lines();
        let line = match required_line(files, reader) {
            Ok(line) => line,
            Err(fault) => return Err(fault),
        };
        if let Some(why) = upper.failure(before, &line) {
            return Err(CheckFault::Rejected {
                line: before + 1,
                why,
            });
        }
        if let CertLine::Conflicts { count } = line {
            return match upper.lines.push(CertLine::Conflicts { count }) {
                Ok(()) => Ok((upper, count)),
                Err(_) => Err(CheckFault::Memory),
            };
        }
        if upper.take(&line).is_err() {
            return Err(CheckFault::Memory);
        }
    }
}
