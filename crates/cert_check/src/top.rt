//! The reading down to the conflicts line.

ghost use Rattle.std.specs.Prelude.{◌≡◌, ◌+◌, IfOk, IfErr};
ghost use Rattle.steno_rules.specs.Outlines.{AreEntries};
ghost use Rattle.certificate.specs.Readers.{OnlyTakes, ahead, certificate_limit, new_reader};
ghost use Rattle.certificate_laws.specs.Validity.{check_outcome};
ghost use Rattle.cert_check.specs.Verdicts.{closure_at, numbering_at, is_check_failed, IsFaultOf};
ghost use Rattle.cert_check.specs.Reading.{WhereTold};
ghost use Rattle.cert_check.specs.inside.Uppers.{IsSound, IsUpperRead};

use crate::faults::CheckFault;
use crate::reading::required_line;
use crate::upper::Upper;
use certificate::{CertLine, CertReader};
use dict_stack::Stack;
use outside::Files;
use report::Why;
use state_numbering::Numbering;
use std::alloc::Global;

/// Reads the lines down to the conflicts: what they list, and how many rows are announced.
pub(crate) fn read_upper<F: Files>(
    alloc: Global,
    stack: &Stack,
    numbering: &Numbering<'_>,
    files: &mut F,
    reader: &mut CertReader,
) -> Result<(Upper, u32), CheckFault>
    requires over { numbering.now ≡ numbering_at stack.now }
    requires entries { AreEntries stack.now.outlines }
    requires begun { reader.old ≡ new_reader certificate_limit }
    ensures read { IfOk result (λ r. WhereTold (ahead reader.old (F.view files.old))
        (λ bytes. IsUpperRead (closure_at stack.now) bytes reader.new.given r.0 r.1
        (ahead reader.new (F.view files.new)))) }
    ensures sound { IfOk result (λ r. IsSound stack.now.outlines r.0) }
    ensures lines { IfOk result (λ r. reader.new.lines ≡ r.0.lines + 1) }
    ensures limit { reader.new.limit ≡ reader.old.limit }
    ensures err { IfErr result (λ fault. WhereTold (ahead reader.old (F.view files.old))
        (λ bytes. IsFaultOf (check_outcome (closure_at stack.now) bytes) fault)) }
    ensures takes { OnlyTakes (is_check_failed result) (F.view files.old) (F.view files.new) }
{
    let mut upper = match Upper::new(alloc, numbering) {
        Ok(upper) => upper,
        Err(_) => return Err(CheckFault::Memory),
    };
    loop {
        let line = match required_line(files, reader) {
            Ok(line) => line,
            Err(fault) => return Err(fault),
        };
        if let CertLine::Conflicts { count } = line {
            if upper.lines < 3 {
                return Err(CheckFault::Rejected {
                    line: u64::from(upper.lines) + 1,
                    why: Why::Form,
                });
            }
            return Ok((upper, count));
        }
        match upper.accept(stack, numbering, &line) {
            Err(_) => return Err(CheckFault::Memory),
            Ok(Some(why)) => {
                return Err(CheckFault::Rejected {
                    line: u64::from(upper.lines) + 1,
                    why,
                });
            }
            Ok(None) => {}
        }
    }
}
