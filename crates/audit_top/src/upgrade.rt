//! `upgrade`: a certificate written anew in version 2, with the longest runs.

ghost use Rattle.std.specs.Prelude.{◌≡◌, IfOk, Some};
ghost use Rattle.outside.specs.Sink.{Puts};
ghost use Rattle.commands.specs.Commands.{upgrade as upgrade_of};
ghost use Rattle.audit_top.specs.inside.Answers.{IsAnswer};
ghost use Rattle.audit_top.specs.Upgraded.{upgraded_line};
ghost use Rattle.audit_top.specs.Runs.{world};

use crate::refusals::Refusal;
use crate::status::Status;
use outside::{Files, OutsideFault, Sink, write_all};
use pages::push_number;
use std::alloc::{AllocError, Global};

/// The line that says how many conflicts the certificate has.
fn upgraded(alloc: Global, conflicts: u32) -> Result<Vec<u8>, AllocError>
    ensures { IfOk result (λ text. text.items ≡ upgraded_line conflicts) }
{
    let mut text = b"upgraded conflicts ".to_vec(alloc)?;
    push_number(&mut text, u64::from(conflicts))?;
    text.push(b'\n')?;
    Ok(text)
}

/// Writes that line.
fn write_upgraded<S: Sink>(alloc: Global, out: &mut S, conflicts: u32) -> Result<(), OutsideFault>
    ensures { let text = upgraded_line conflicts in
        Puts text result (S.text out.old) (S.text out.new) (S.faults out.old) (S.faults out.new) }
{
    let text = upgraded(alloc, conflicts)?;
    write_all(out, &text)
}

/// The certificate in one file, written anew to another. Both names may be equal.
pub(crate) fn upgrade<F: Files, S: Sink>(
    alloc: Global,
    certificate: &str,
    target: &str,
    files: &mut F,
    out: &mut S,
) -> Result<Status, Refusal>
    ensures { let before = world (F.view files.old) (S.text out.old) (S.faults out.old) in
        let after = world (F.view files.new) (S.text out.new) (S.faults out.new) in
        IsAnswer (Some (upgrade_of certificate.now target.now)) before after result }
{
    let done = cert_upgrade::upgrade(alloc, files, certificate, target)?;
    write_upgraded(alloc, out, done.conflicts)?;
    Ok(Status::Clean)
}
