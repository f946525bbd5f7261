//! The lines that stand once in a certificate, added to the file that is being written.

ghost use Rattle.std.specs.Prelude.{[], ◌∷◌, IsSome};
ghost use Rattle.certificate.specs.Writers.{HasWord};
ghost use Rattle.certificate.specs.declared.lines.CertLine.TheVariants as of;
ghost use Rattle.audit_certificate.specs.inside.Puts.{PutsLines};

use certificate::{CertFault, CertLine, CertWriter};
use outside::Files;

/// Adds a line.
pub(crate) fn put_line<F: Files>(
    writer: &mut CertWriter,
    files: &mut F,
    line: &CertLine,
) -> Result<(), CertFault>
    requires writes { IsSome (F.view files.old).writing }
    requires word { HasWord line.now }
    ensures { PutsLines (line.now ∷ []) result writer.old writer.new
        (F.view files.old) (F.view files.new) }
{
    writer.line(files, line)
}

/// Adds the lines above the runs: the version, and how many entries and numbers of states there are.
pub(crate) fn put_head<F: Files>(
    writer: &mut CertWriter,
    files: &mut F,
    entries: u32,
    states: u32,
) -> Result<(), CertFault>
    requires writes { IsSome (F.view files.old).writing }
    ensures { PutsLines (of.Head 2 ∷ of.Entries entries ∷ of.States states ∷ []) result
        writer.old writer.new (F.view files.old) (F.view files.new) }
{
    match put_line(writer, files, &CertLine::Head { version: 2 }) {
        Ok(()) => {}
        Err(fault) => return Err(fault),
    }
    match put_line(writer, files, &CertLine::Entries { count: entries }) {
        Ok(()) => {}
        Err(fault) => return Err(fault),
    }
    put_line(writer, files, &CertLine::States { count: states })
}
