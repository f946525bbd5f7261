//! The rows: the conflicts with their examples.

ghost use Rattle.std.specs.Prelude.{◌≡◌, ◌<◌, ◌≤◌, All, IfOk, IsSome, length};
ghost use Rattle.certificate.specs.declared.lines.CertLine.TheVariants as of;
ghost use Rattle.certificate.specs.Readers.{certificate_limit};
ghost use Rattle.audit_certificate.specs.inside.Puts.{PutsLines, row_lines};

use crate::lines::put_line;
use certificate::{CertFault, CertLine, CertWriter};
use longest_match::Conflict;
use outside::Files;
use std::alloc::{AllocError, Global};

/// The line of a row, which is copied.
fn row_line(alloc: Global, row: &Conflict) -> Result<CertLine, AllocError>
    ensures { IfOk result (λ line. line ≡ of.Row row.now) }
{
    let words = row.words().to_vec(alloc)?;
    Ok(CertLine::Row {
        conflict: Conflict::new(row.entry(), row.place(), row.strokes(), words),
    })
}

/// Adds the rows. Only one of them is copied at a time.
pub(crate) fn put_rows<F: Files>(
    alloc: Global,
    writer: &mut CertWriter,
    files: &mut F,
    rows: &[Conflict],
) -> Result<(), CertFault>
    requires writes { IsSome (F.view files.old).writing }
    requires within { writer.old ≤ certificate_limit }
    requires words { All (λ row. 0 < length row.words) rows.now }
    ensures { PutsLines (row_lines rows.now) result writer.old writer.new
        (F.view files.old) (F.view files.new) }
{
    for row in rows {
        match row_line(alloc, row) {
            Ok(line) => match put_line(writer, files, &line) {
                Ok(()) => {}
                Err(fault) => return Err(fault),
            },
            Err(AllocError) => return Err(CertFault::Memory),
        }
    }
    Ok(())
}
