//! `rows`: the rows of a report in JSON, as lines.

ghost use Rattle.std.specs.Prelude.{◌≡◌, ◌≤◌, IfErr, IfOk, IfSome, Some, length};
ghost use Rattle.report.specs.Refusals.{file_failed};
ghost use Rattle.commands.specs.Commands.{rows as rows_of};
ghost use Rattle.audit_top.specs.inside.Answers.{Answers, IsAnswer};
ghost use Rattle.audit_top.specs.Listed.{IsListed};
ghost use Rattle.audit_top.specs.Runs.{output, world};
ghost use Rattle.dict_files.specs.declared.loading.TheConstants.{MAX_BYTES};

use crate::refusals::Refusal;
use crate::status::Status;
use dict_files::MAX_BYTES;
use outside::{Files, Sink, read_all};
use report_json::{read_json, write_rows};
use std::alloc::Global;

/// The rows of the report that these bytes are.
fn list_rows<S: Sink>(alloc: Global, bytes: &[u8], out: &mut S) -> Result<Status, Refusal>
    requires { length bytes.now ≤ MAX_BYTES }
    ensures { let before = output (S.text out.old) (S.faults out.old) in
        let after = output (S.text out.new) (S.faults out.new) in
        Answers (IsListed bytes.now) before after result }
{
    let report = read_json(alloc, bytes)?;
    write_rows(alloc, out, &report)?;
    Ok(Status::Clean)
}

/// The rows of the report in this file.
pub(crate) fn rows<F: Files, S: Sink>(
    alloc: Global,
    file: &str,
    files: &mut F,
    out: &mut S,
) -> Result<Status, Refusal>
    ensures { let before = world (F.view files.old) (S.text out.old) (S.faults out.old) in
        let after = world (F.view files.new) (S.text out.new) (S.faults out.new) in
        IsAnswer (Some (rows_of file.now)) before after result }
{
    let bytes = read_all(alloc, files, file, MAX_BYTES)?;
    list_rows(alloc, &bytes, out)
}
