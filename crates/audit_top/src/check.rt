//! `check`: whether a certificate is valid for dictionaries.

ghost use Rattle.std.specs.Prelude.{◌≡◌, IfOk, None, Some, map, string_bytes};
ghost use Rattle.conflict_example.specs.Chosen.{words_in_stack};
ghost use Rattle.outside.specs.Sink.{Puts};
ghost use Rattle.report.specs.Refusals.{certificate_failed};
ghost use Rattle.commands.specs.Commands.{check as check_of};
ghost use Rattle.audit_top.specs.inside.Answers.{Goes, IsAnswer, reads_only};
ghost use Rattle.audit_top.specs.Checked.{IsCheck, accepted_line};
ghost use Rattle.audit_top.specs.Outcomes.{UnlessRefused, search_limit};
ghost use Rattle.audit_top.specs.Runs.{output, world};

use crate::refusals::Refusal;
use crate::status::Status;
use closure_state::WordSet;
use dict_files::read_stack;
use dict_stack::Stack;
use match_window::Windows;
use outline_trie::Trie;
use outside::{Files, OutsideFault, Sink, write_all};
use pages::push_number;
use state_numbering::Numbering;
use std::alloc::{AllocError, Global};

/// The line that says how many conflicts a certificate has.
fn accepted(alloc: Global, conflicts: u32) -> Result<Vec<u8>, AllocError>
    ensures { IfOk result (λ text. text.items ≡ accepted_line conflicts) }
{
    let mut text = b"accepted conflicts ".to_vec(alloc)?;
    push_number(&mut text, u64::from(conflicts))?;
    text.push(b'\n')?;
    Ok(text)
}

/// Writes that line.
fn write_accepted<S: Sink>(alloc: Global, out: &mut S, conflicts: u32) -> Result<(), OutsideFault>
    ensures { let text = accepted_line conflicts in
        Puts text result (S.text out.old) (S.text out.new) (S.faults out.old) (S.faults out.new) }
{
    let text = accepted(alloc, conflicts)?;
    write_all(out, &text)
}

/// A check whose states are numbered.
fn check_numbered<F: Files, S: Sink>(
    alloc: Global,
    certificate: &str,
    stack: &Stack,
    trie: &Trie,
    numbering: &Numbering<'_>,
    files: &mut F,
    out: &mut S,
) -> Result<Status, Refusal>
    requires trie { trie.now ≡ stack.now.outlines }
    requires entries { numbering.now.entries ≡ stack.now.outlines }
    requires words { numbering.now.words ≡ words_in_stack stack.now }
    ensures { let before = world (F.view files.old) (S.text out.old) (S.faults out.old) in
        let after = world (F.view files.new) (S.text out.new) (S.faults out.new) in
        Goes certificate_failed None (reads_only certificate.now) (λ file. IsCheck file stack.now)
        before after result }
{
    let done = cert_check::check(alloc, stack, trie, numbering, files, certificate)?;
    write_accepted(alloc, out, done.conflicts)?;
    Ok(Status::Clean)
}

/// A check whose dictionaries were read.
fn check_stack<F: Files, S: Sink>(
    alloc: Global,
    certificate: &str,
    stack: &Stack,
    files: &mut F,
    out: &mut S,
) -> Result<Status, Refusal>
    ensures { let before = world (F.view files.old) (S.text out.old) (S.faults out.old) in
        let after = world (F.view files.new) (S.text out.new) (S.faults out.new) in
        Goes certificate_failed (search_limit stack.now) (reads_only certificate.now)
        (λ file. UnlessRefused (search_limit stack.now) (IsCheck file stack.now)) before after result }
{
    let trie = Trie::new(alloc, stack.outlines())?;
    let windows = Windows::new(alloc, &trie)?;
    let words = WordSet::new(alloc, &trie, stack.words())?;
    let numbering = Numbering::new(alloc, &trie, &windows, &words)?;
    check_numbered(alloc, certificate, stack, &trie, &numbering, files, out)
}

/// The check of a certificate against the dictionaries that the arguments name.
pub(crate) fn check<F: Files, S: Sink>(
    alloc: Global,
    certificate: &str,
    dicts: &[String],
    files: &mut F,
    out: &mut S,
) -> Result<Status, Refusal>
    ensures { let before = world (F.view files.old) (S.text out.old) (S.faults out.old) in
        let after = world (F.view files.new) (S.text out.new) (S.faults out.new) in
        IsAnswer (Some (check_of certificate.now (map string_bytes dicts.now))) before after result }
{
    let stack = read_stack(alloc, files, dicts)?;
    check_stack(alloc, certificate, &stack, files, out)
}
