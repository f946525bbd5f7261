//! The rows of a certificate, and its end.

ghost use Rattle.std.specs.Prelude.{ℕ, List, ◌≡◌, ◌<◌, [], ◌∷◌, ◌&&◌, false, nat_lt, slice_index_or, length, IfOk, IfErr, All};
ghost use Rattle.certificate.specs.CertTexts.{Listed};
ghost use Rattle.certificate.specs.Readers.{OnlyTakes, ahead, certificate_limit};
ghost use Rattle.certificate_laws.specs.Closures.{Closure};
ghost use Rattle.certificate_laws.specs.Validity.{check_outcome};
ghost use Rattle.cert_check.specs.Verdicts.{closure_at, is_check_failed, IsFaultOf};
ghost use Rattle.cert_check.specs.inside.Left.{AreLeft};
ghost use Rattle.cert_check.specs.inside.Founds.{AtRows};
ghost use Rattle.cert_check.specs.inside.RowAnswers.{IsRowTest, are_such_words, is_of_pair};

use crate::faults::CheckFault;
use crate::founds::Found;
use crate::reading::required_line;
use certificate::{CertFault, CertLine, CertReader};
use dict_stack::Stack;
use longest_match::Conflict;
use outline_trie::Trie;
use outside::Files;
use report::Why;
use std::alloc::{AllocError, Global};
use translator::shows;

/// No conflict has so many strokes: there are fewer numbers of states.
const FAR: u32 = 67_108_864;

/// Whether these are numbers of words with so many strokes together. It stops as soon as there are more.
fn are_words_of(stack: &Stack, words: &[u32], strokes: u32) -> bool
    ensures { result ≡ are_such_words (closure_at stack.now) words.now strokes }
{
    let flags = stack.words();
    let most = u64::from(strokes);
    let mut sum: u64 = 0;
    for word in words {
        if !is_flagged(flags, *word) {
            return false;
        }
        sum += stack.outline(*word).strokes().len() as u64;
        if sum > most {
            return false;
        }
    }
    sum == most
}

/// Whether the flag of the number is set.
fn is_flagged(flags: &[bool], number: u32) -> bool
    ensures { result ≡ (nat_lt number (length flags.now) && slice_index_or flags.now number false) }
{
    match flags.get(number as usize) {
        Some(flag) => *flag,
        None => false,
    }
}

/// Whether the row is about the pair, with the distance that was found.
fn is_of_pair(found: Found, row: &Conflict) -> bool
    ensures { result ≡ is_of_pair found row.now }
{
    row.entry() == found.entry
        && row.place() == found.place
        && row.strokes() == found.distance
        && found.distance < FAR
}

/// Whether a row is the one of the pair: its words have as many strokes as the least distance of the pair's listed
/// hits, and show the pair.
pub(crate) fn is_row_for(
    alloc: Global,
    stack: &Stack,
    trie: &Trie,
    found: Found,
    row: &Conflict,
) -> Result<bool, AllocError>
    requires trie { trie.now ≡ stack.now.outlines }
    requires entry { found.entry < length stack.now.outlines }
    ensures { IfOk result (IsRowTest (closure_at stack.now) found row.now) }
{
    if !is_of_pair(found, row) {
        return Ok(false);
    }
    if !are_words_of(stack, row.words(), row.strokes()) {
        return Ok(false);
    }
    shows(
        alloc,
        trie,
        stack.outlines(),
        row.words(),
        found.entry,
        found.place,
    )
}

/// Reads the row of a pair.
fn read_row<F: Files>(
    alloc: Global,
    stack: &Stack,
    trie: &Trie,
    found: Found,
    files: &mut F,
    reader: &mut CertReader,
) -> Result<(), CheckFault>
    requires trie { trie.now ≡ stack.now.outlines }
    requires entry { found.entry < length stack.now.outlines }
    requires limit { reader.old.limit ≡ certificate_limit }
    ensures read { IfOk result (λ _. (all : List Listed) (bytes : List ℕ) (others : List Found)
        → AtRows (closure_at stack.now) all bytes
        reader.old.given reader.old.lines (found ∷ others) (ahead reader.old (F.view files.old))
        → AtRows (closure_at stack.now) all bytes
        reader.new.given reader.new.lines others (ahead reader.new (F.view files.new))) }
    ensures limit { reader.new.limit ≡ reader.old.limit }
    ensures err { IfErr result (λ fault. (all : List Listed) (bytes : List ℕ) (others : List Found)
        → AtRows (closure_at stack.now) all bytes
        reader.old.given reader.old.lines (found ∷ others) (ahead reader.old (F.view files.old))
        → IsFaultOf (check_outcome (closure_at stack.now) bytes) fault) }
    ensures takes { OnlyTakes (is_check_failed result) (F.view files.old) (F.view files.new) }
{
    let line = match required_line(files, reader) {
        Ok(line) => line,
        Err(fault) => return Err(fault),
    };
    let CertLine::Row { conflict } = line else {
        return Err(CheckFault::Rejected {
            line: reader.lines(),
            why: Why::Form,
        });
    };
    match is_row_for(alloc, stack, trie, found, &conflict) {
        Ok(true) => Ok(()),
        Ok(false) => Err(CheckFault::Rejected {
            line: reader.lines(),
            why: Why::Row,
        }),
        Err(_) => Err(CheckFault::Memory),
    }
}

/// Reads the rows of these pairs.
pub(crate) fn read_rows<F: Files>(
    alloc: Global,
    stack: &Stack,
    trie: &Trie,
    founds: &[Found],
    files: &mut F,
    reader: &mut CertReader,
) -> Result<(), CheckFault>
    requires trie { trie.now ≡ stack.now.outlines }
    requires entries { All (λ f. f.entry < length stack.now.outlines) founds.now }
    requires limit { reader.old.limit ≡ certificate_limit }
    ensures read { IfOk result (λ _. (all : List Listed) (bytes : List ℕ)
        → AtRows (closure_at stack.now) all bytes
        reader.old.given reader.old.lines founds.now (ahead reader.old (F.view files.old))
        → AtRows (closure_at stack.now) all bytes
        reader.new.given reader.new.lines [] (ahead reader.new (F.view files.new))) }
    ensures limit { reader.new.limit ≡ reader.old.limit }
    ensures err { IfErr result (λ fault. (all : List Listed) (bytes : List ℕ)
        → AtRows (closure_at stack.now) all bytes
        reader.old.given reader.old.lines founds.now (ahead reader.old (F.view files.old))
        → IsFaultOf (check_outcome (closure_at stack.now) bytes) fault) }
    ensures takes { OnlyTakes (is_check_failed result) (F.view files.old) (F.view files.new) }
{
    for found in founds {
        match read_row(alloc, stack, trie, *found, files, reader) {
            Ok(()) => {}
            Err(fault) => return Err(fault),
        }
    }
    Ok(())
}

/// Reads the end, behind which there is nothing.
pub(crate) fn read_end<F: Files>(files: &mut F, reader: &mut CertReader) -> Result<(), CheckFault>
    requires limit { reader.old.limit ≡ certificate_limit }
    ensures read { IfOk result (λ _. (closure : Closure) (all : List Listed) (bytes : List ℕ)
        → AtRows closure all bytes
        reader.old.given reader.old.lines [] (ahead reader.old (F.view files.old))
        → AreLeft closure bytes []) }
    ensures err { IfErr result (λ fault. (closure : Closure) (all : List Listed) (bytes : List ℕ)
        → AtRows closure all bytes
        reader.old.given reader.old.lines [] (ahead reader.old (F.view files.old))
        → IsFaultOf (check_outcome closure bytes) fault) }
    ensures takes { OnlyTakes (is_check_failed result) (F.view files.old) (F.view files.new) }
{
    let line = match required_line(files, reader) {
        Ok(line) => line,
        Err(fault) => return Err(fault),
    };
    let CertLine::End = line else {
        return Err(CheckFault::Rejected {
            line: reader.lines(),
            why: Why::Form,
        });
    };
    let next = reader.lines() + 1;
    match reader.line(files) {
        Ok(None) => Ok(()),
        Ok(Some(_)) => Err(CheckFault::Rejected {
            line: next,
            why: Why::Rest,
        }),
        Err(CertFault::Bad { .. }) => Err(CheckFault::Rejected {
            line: next,
            why: Why::Rest,
        }),
        Err(CertFault::Failed) => Err(CheckFault::Failed),
        Err(CertFault::TooLong) => Err(CheckFault::TooLong),
        Err(CertFault::Memory) => Err(CheckFault::Memory),
    }
}
