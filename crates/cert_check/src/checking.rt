//! The check.

ghost use Rattle.std.specs.Prelude.{◌≡◌, IfOk, IfErr, IfSome, OnOk};
ghost use Rattle.steno_rules.specs.Outlines.{flagged_entries};
ghost use Rattle.certificate.specs.Readers.{IsOpened, OnlyTakes, OpensFile, ahead, certificate_limit, new_reader};
ghost use Rattle.certificate_laws.specs.Checks.{accepted};
ghost use Rattle.certificate_laws.specs.Validity.{check_outcome};
ghost use Rattle.cert_check.specs.Verdicts.{closure_at, numbering_at, is_check_failed, IsAccepted, IsCheckCause, IsFaultOf};
ghost use Rattle.cert_check.specs.Reading.{IsUntold, WhereTold};

use crate::faults::{CheckDone, CheckFault};
use crate::listing::check_listing;
use crate::rows::{read_end, read_rows};
use crate::top::read_upper;
use certificate::{CertFault, CertReader};
use dict_stack::Stack;
use outline_trie::Trie;
use outside::Files;
use state_numbering::Numbering;
use std::alloc::Global;

/// Begins to read the certificate.
fn begin<F: Files>(alloc: Global, files: &mut F, name: &str) -> Result<CertReader, CheckFault>
    ensures reader { IfOk result (λ reader. reader ≡ new_reader certificate_limit) }
    ensures opened { OnOk result (IsOpened name.now (F.view files.old) (F.view files.new)) }
    ensures opens { OpensFile name.now (is_check_failed result)
        (F.view files.old) (F.view files.new) }
    ensures fault { IfErr result IsUntold }
{
    match CertReader::begin(alloc, files, name) {
        Ok(reader) => Ok(reader),
        Err(CertFault::Failed) => Err(CheckFault::Failed),
        Err(_) => Err(CheckFault::Memory),
    }
}

/// The check of what a reader reads from its begin on.
fn check_lines<F: Files>(
    alloc: Global,
    stack: &Stack,
    trie: &Trie,
    numbering: &Numbering<'_>,
    files: &mut F,
    reader: &mut CertReader,
) -> Result<CheckDone, CheckFault>
    requires trie { trie.now ≡ stack.now.outlines }
    requires over { numbering.now ≡ numbering_at stack.now }
    requires begun { reader.old ≡ new_reader certificate_limit }
    ensures done { IfOk result (λ done. WhereTold (ahead reader.old (F.view files.old))
        (λ bytes. check_outcome (closure_at stack.now) bytes ≡ accepted done.conflicts)) }
    ensures fault { IfErr result (λ fault. WhereTold (ahead reader.old (F.view files.old))
        (λ bytes. IsFaultOf (check_outcome (closure_at stack.now) bytes) fault)) }
    ensures takes { OnlyTakes (is_check_failed result) (F.view files.old) (F.view files.new) }
{
    let _outlines = stack.outlines();
    let (upper, announced) = match read_upper(alloc, stack, numbering, files, reader) {
        Ok(read) => read,
        Err(fault) => return Err(fault),
    };
    let founds = match check_listing(alloc, stack, numbering, &upper, announced) {
        Ok(founds) => founds,
        Err(fault) => return Err(fault),
    };
    if let Err(fault) = read_rows(alloc, stack, trie, &founds, files, reader) {
        return Err(fault);
    }
    match read_end(files, reader) {
        Ok(()) => Ok(CheckDone {
            conflicts: announced,
        }),
        Err(fault) => Err(fault),
    }
}

/// The check, without what follows from its answer.
fn checked<F: Files>(
    alloc: Global,
    stack: &Stack,
    trie: &Trie,
    numbering: &Numbering<'_>,
    files: &mut F,
    name: &str,
) -> Result<CheckDone, CheckFault>
    requires trie { trie.now ≡ stack.now.outlines }
    requires over { numbering.now ≡ numbering_at stack.now }
    ensures done { IfOk result (λ done. IfSome (F.view files.old).held (λ held.
        check_outcome (closure_at stack.now) (held name.now) ≡ accepted done.conflicts)) }
    ensures fault { IfErr result (λ fault. IfSome (F.view files.old).held (λ held.
        IsFaultOf (check_outcome (closure_at stack.now) (held name.now)) fault)) }
    ensures opens { OpensFile name.now (is_check_failed result)
        (F.view files.old) (F.view files.new) }
{
    let mut reader = match begin(alloc, files, name) {
        Ok(reader) => reader,
        Err(fault) => return Err(fault),
    };
    check_lines(alloc, stack, trie, numbering, files, &mut reader)
}

/// Whether the file is a valid certificate for the entries and words of the stack.
///
/// What is accepted is valid by the definition, with all targets, and its rows are the conflicts. What is rejected is
/// not, and the first check that fails is told. A fault, the limit and memory are told at the place in the file at
/// which they are met: a rejection at an earlier place comes before them. The file is read once. The trie is that of
/// the stack's entries. The cost is linear in the file and in the states' moves, and for each row in its strokes.
pub fn check<F: Files>(
    alloc: Global,
    stack: &Stack,
    trie: &Trie,
    numbering: &Numbering<'_>,
    files: &mut F,
    name: &str,
) -> Result<CheckDone, CheckFault>
    requires trie { trie.now ≡ stack.now.outlines }
    requires entries { numbering.now.entries ≡ stack.now.outlines }
    requires words { numbering.now.words ≡ flagged_entries stack.now.outlines stack.now.words }
    ensures done { IfOk result (λ done. IfSome (F.view files.old).held (λ held.
        IsAccepted stack.now (held name.now) done.conflicts)) }
    ensures fault { IfErr result (λ fault. IfSome (F.view files.old).held (λ held.
        IsCheckCause stack.now (held name.now) fault)) }
    ensures opens { OpensFile name.now (is_check_failed result)
        (F.view files.old) (F.view files.new) }
{
    let _outlines = stack.outlines();
    checked(alloc, stack, trie, numbering, files, name)
}
