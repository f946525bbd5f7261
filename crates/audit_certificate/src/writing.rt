//! The whole certificate.

ghost use Rattle.std.specs.Prelude.{ℕ, List, [], ◌∷◌, Bool, ◌≡◌, ◌<◌, ◌≤◌, ◌++◌, All, IfErr, IfSome, IsSome, OnOk, length};
ghost use Rattle.graph_rules.specs.Graphs.{most_numbers};
ghost use Rattle.longest_match.specs.Rows.{row_limit};
ghost use Rattle.outside.specs.Files.{Both, Replaces};
ghost use Rattle.certificate.specs.CertFaults.{is_cert_failed};
ghost use Rattle.certificate.specs.Readers.{certificate_limit};
ghost use Rattle.certificate.specs.declared.lines.CertLine.TheVariants as of;
ghost use Rattle.audit_certificate.specs.OwnCertificates.{IsAudited, own_certificate};
ghost use Rattle.audit_certificate.specs.Proving.{ProvesAudit};
ghost use Rattle.audit_certificate.specs.Written.{LeavesFile, WritesFile, own_certificate_lines};
ghost use Rattle.audit_certificate.specs.inside.Puts.{PutsLines, row_lines};

use crate::lines::{put_head, put_line};
use crate::rows::put_rows;
use crate::runs::put_runs;
use certificate::{CertFault, CertLine, CertWriter};
use longest_match::Conflict;
use outside::Files;
use std::alloc::Global;

/// Adds the lines from the conflicts on.
fn put_conflicts<F: Files>(
    alloc: Global,
    rows: &[Conflict],
    writer: &mut CertWriter,
    files: &mut F,
) -> Result<(), CertFault>
    requires writes { IsSome (F.view files.old).writing }
    requires rows { length rows.now < row_limit }
    requires words { All (λ row. 0 < length row.words) rows.now }
    ensures { let lines = of.Conflicts (length rows.now) ∷ (row_lines rows.now ++ of.End ∷ []) in
        PutsLines lines result writer.old writer.new (F.view files.old) (F.view files.new) }
{
    let count = rows.len() as u32;
    match put_line(writer, files, &CertLine::Conflicts { count }) {
        Ok(()) => {}
        Err(fault) => return Err(fault),
    }
    match put_rows(alloc, writer, files, rows) {
        Ok(()) => {}
        Err(fault) => return Err(fault),
    }
    put_line(writer, files, &CertLine::End)
}

/// Adds all lines.
fn put_lines<F: Files>(
    alloc: Global,
    entries: u32,
    words: &[u64],
    rows: &[Conflict],
    writer: &mut CertWriter,
    files: &mut F,
) -> Result<(), CertFault>
    requires writes { IsSome (F.view files.old).writing }
    requires numbers { length words.now ≤ most_numbers }
    requires rows { length rows.now < row_limit }
    requires words { All (λ row. 0 < length row.words) rows.now }
    ensures { let lines = own_certificate_lines entries words.now rows.now in
        PutsLines lines result writer.old writer.new (F.view files.old) (F.view files.new) }
{
    match put_head(writer, files, entries, words.len() as u32) {
        Ok(()) => {}
        Err(fault) => return Err(fault),
    }
    match put_runs(writer, files, words) {
        Ok(()) => {}
        Err(fault) => return Err(fault),
    }
    put_conflicts(alloc, rows, writer, files)
}

/// Writes the certificate of an audit to the named file: of so many entries, with the settled words of its search and
/// the rows of its report. Whoever reads the file has a proof of the audit: a valid certificate, whose rows are exactly
/// the conflicts.
///
/// A certificate of more than 4,294,967,296 bytes is refused by `TooLong`; then the file holds its first lines, as many
/// as fit. After `Failed` or `Memory` the file holds a prefix of the lines that fit, or all files are as they were. No
/// file is being written afterwards, and `Failed` comes only with a fault on writing this file.
///
/// The states take no memory: each run is written when its end is found, through one buffer. A row is copied while it
/// is written. The table is walked once.
pub fn write_certificate<F: Files>(
    alloc: Global,
    entries: u32,
    words: &[u64],
    rows: &[Conflict],
    files: &mut F,
    name: &str,
) -> Result<(), CertFault>
    requires numbers { length words.now ≤ most_numbers }
    requires rows { length rows.now < row_limit }
    requires words { All (λ row. 0 < length row.words) rows.now }
    ensures whole { OnOk result (Both
        (Replaces name.now (own_certificate entries words.now rows.now))
        (F.view files.old).held (F.view files.new).held) }
    ensures fits { OnOk result
        (length (own_certificate entries words.now rows.now) ≤ certificate_limit) }
    ensures proves { OnOk result ((outlines : List (List ℕ)) (flags : List Bool)
        → length outlines ≡ entries → IsAudited outlines flags words.now rows.now
        → IfSome (F.view files.new).held (λ held.
        ProvesAudit outlines flags words.now rows.now (held name.now))) }
    ensures leaves { IfErr result (λ fault. LeavesFile
        name.now (own_certificate_lines entries words.now rows.now) fault
        (F.view files.old).held (F.view files.new).held) }
    ensures writes { WritesFile name.now (is_cert_failed result)
        (F.view files.old) (F.view files.new) }
{
    match CertWriter::begin(alloc, files, name) {
        Ok(mut writer) => {
            let written = put_lines(alloc, entries, words, rows, &mut writer, files);
            match writer.end(files) {
                Ok(()) => written,
                Err(fault) => Err(fault),
            }
        }
        Err(fault) => Err(fault),
    }
}
