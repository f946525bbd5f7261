//! The next line of a file, also where it is longer than what is held.
//!
//! A line that isn't held whole can only be a row, whose words have no end: it is read piece by piece up to the last
//! space of each. Any other such line is passed over, and nothing of it is kept.

ghost use Rattle.std.specs.Prelude.{◌≡◌, ◌<◌, ◌≤◌, ◌+◌, ◌^◌, length, take, IfErr, IfOk, codes, is_err, if◌then◌else◌, nat_le};
ghost use Rattle.std.specs.Str.{bytes_eq};
ghost use Rattle.text_rules.specs.Lines.{parts_between};
ghost use Rattle.certificate.specs.CertFaults.{IsOutside, is_cert_failed};
ghost use Rattle.certificate.specs.CertReading.{of_words};
ghost use Rattle.certificate.specs.Readers.{CountsTaken, OnlyTakes};
ghost use Rattle.certificate.specs.inside.Pieces.{piece_size};
ghost use Rattle.certificate.specs.inside.Reads.{IsHeldLine, IsGiven, IsNextLine, IsRowPiece, IsSkipped, row_with};

use crate::faults::CertFault;
use crate::finding::last_place;
use crate::lines::CertLine;
use crate::numbers::push_numbers;
use crate::parsing::{body_line, is, named_line};
use crate::pieces::{PIECE, Pieces, Reach};
use outside::{Failed, Files};
use std::alloc::{AllocError, Global};

/// What the next line is.
pub(crate) enum Read {
    /// The line, of so many bytes.
    Line { line: CertLine, len: u64 },
    /// The text of no line.
    Bad,
    /// A line that doesn't end within the room.
    Long,
    /// Nothing is ahead.
    End,
}

/// What a line of this length is that can't be read.
fn unread(len: u64, room: u64) -> Read
    ensures { result ≡ (if nat_le len room then Read.Bad else Read.Long) }
{
    if len <= room { Read::Bad } else { Read::Long }
}

/// Passes over the line that was read, if there is one.
fn give(pieces: &mut Pieces, line: Option<CertLine>, body: usize, len: u64) -> Read
    requires held { body < length pieces.old.left }
    requires few { body < piece_size }
    ensures { IsGiven result line (body + 1) len pieces.old pieces.new }
{
    match line {
        Some(line) => {
            pieces.pass(body + 1);
            Read::Line { line, len }
        }
        None => Read::Bad,
    }
}

/// Reads a line that is held.
fn held_line(
    alloc: Global,
    pieces: &mut Pieces,
    numbers: &mut Vec<u32>,
    body: usize,
    room: u64,
) -> Result<Read, AllocError>
    requires held { body < length pieces.old.left }
    requires few { body < piece_size }
    ensures found { IfOk result (λ read.
        IsHeldLine read (of_words (parts_between 32 (take body pieces.old.left)))
        body 0 room pieces.old pieces.new) }
    ensures taken { pieces.new.taken ≡ pieces.old.taken }
{
    let len = body as u64 + 1;
    if len > room {
        return Ok(Read::Long);
    }
    let line = body_line(alloc, numbers, &pieces.bytes()[..body])?;
    Ok(give(pieces, line, body, len))
}

/// Reads the last numbers of a row, of which `done` bytes were passed over.
fn row_end(
    alloc: Global,
    pieces: &mut Pieces,
    numbers: &mut Vec<u32>,
    body: usize,
    done: u64,
    room: u64,
) -> Result<Read, AllocError>
    requires held { body < length pieces.old.left }
    requires few { body < piece_size }
    requires passed { done ≤ 2 ^ 32 }
    ensures found { IfOk result (λ read.
        IsHeldLine read (row_with numbers.old.items (parts_between 32 (take body pieces.old.left)))
        body done room pieces.old pieces.new) }
    ensures taken { pieces.new.taken ≡ pieces.old.taken }
{
    let len = done + body as u64 + 1;
    if len > room {
        return Ok(Read::Long);
    }
    if !push_numbers(numbers, &pieces.bytes()[..body])? {
        return Ok(Read::Bad);
    }
    let line = named_line(alloc, b"r", numbers)?;
    Ok(give(pieces, line, body, len))
}

/// Reads the numbers up to the last space that is held, and answers how many bytes were passed over, or None where the
/// line can't be a row.
fn row_piece(pieces: &mut Pieces, numbers: &mut Vec<u32>) -> Result<Option<usize>, AllocError>
    requires { length pieces.old.left ≤ piece_size }
    ensures piece { IfOk result (λ count.
        IsRowPiece count numbers.old.items numbers.new.items pieces.old pieces.new) }
    ensures taken { pieces.new.taken ≡ pieces.old.taken }
{
    let Some(space) = last_place(b' ', pieces.bytes()) else {
        return Ok(None);
    };
    if !push_numbers(numbers, &pieces.bytes()[..space])? {
        return Ok(None);
    }
    pieces.pass(space + 1);
    Ok(Some(space + 1))
}

/// Whether the held bytes begin as a row does.
fn begins_row(pieces: &Pieces) -> bool
    requires { 2 ≤ length pieces.now.left }
    ensures { result ≡ bytes_eq (take 2 pieces.now.left) (codes "r ") }
{
    is(&pieces.bytes()[..2], b"r ")
}

/// Passes over a line that can't be read, of which nothing is held.
fn skip_line<F: Files>(pieces: &mut Pieces, files: &mut F, room: u64) -> Result<Read, Failed>
    requires { room ≤ 2 ^ 32 }
    ensures skipped { IfOk result (λ read. IsSkipped read room pieces.old pieces.new
        (F.view files.old) (F.view files.new)) }
    ensures counts { CountsTaken pieces.old.taken pieces.new.taken
        (F.view files.old).rest (F.view files.new).rest }
    ensures takes { OnlyTakes (is_err result) (F.view files.old) (F.view files.new) }
{
    let mut done: u64 = 0;
    loop {
        match pieces.reach(files)? {
            Reach::Line { body } => return Ok(unread(done + body as u64 + 1, room)),
            Reach::End => return Ok(unread(done + pieces.bytes().len() as u64, room)),
            Reach::Full if done + PIECE as u64 > room => return Ok(Read::Long),
            Reach::Full => {
                pieces.pass(PIECE);
                done += PIECE as u64;
            }
        }
    }
}

/// Reads a row that isn't held whole, piece by piece.
fn long_row<F: Files>(
    alloc: Global,
    pieces: &mut Pieces,
    numbers: &mut Vec<u32>,
    files: &mut F,
    room: u64,
) -> Result<Read, CertFault>
    requires row { take 2 pieces.old.left ≡ codes "r " }
    requires few { room ≤ 2 ^ 32 }
    requires some { piece_size ≤ room }
    ensures read { IfOk result (λ read. IsNextLine read room pieces.old pieces.new
        (F.view files.old) (F.view files.new)) }
    ensures outside { IfErr result IsOutside }
    ensures counts { CountsTaken pieces.old.taken pieces.new.taken
        (F.view files.old).rest (F.view files.new).rest }
    ensures takes { OnlyTakes (is_cert_failed result) (F.view files.old) (F.view files.new) }
{
    numbers.clear();
    pieces.pass(2);
    let mut done: u64 = 2;
    loop {
        match pieces.reach(files)? {
            Reach::Line { body } => return Ok(row_end(alloc, pieces, numbers, body, done, room)?),
            Reach::End => return Ok(unread(done + pieces.bytes().len() as u64, room)),
            Reach::Full if done + PIECE as u64 > room => return Ok(Read::Long),
            Reach::Full => {
                match row_piece(pieces, numbers)? {
                    Some(count) => done += count as u64,
                    None => {
                        pieces.pass(PIECE);
                        return Ok(skip_line(pieces, files, room - done - PIECE as u64)?);
                    }
                }
            }
        }
    }
}

/// Reads the next line, if it ends within so many bytes. The list of numbers is room that serves line after line.
pub(crate) fn next_line<F: Files>(
    alloc: Global,
    pieces: &mut Pieces,
    numbers: &mut Vec<u32>,
    files: &mut F,
    room: u64,
) -> Result<Read, CertFault>
    requires { room ≤ 2 ^ 32 }
    ensures read { IfOk result (λ read. IsNextLine read room pieces.old pieces.new
        (F.view files.old) (F.view files.new)) }
    ensures outside { IfErr result IsOutside }
    ensures counts { CountsTaken pieces.old.taken pieces.new.taken
        (F.view files.old).rest (F.view files.new).rest }
    ensures takes { OnlyTakes (is_cert_failed result) (F.view files.old) (F.view files.new) }
{
    match pieces.reach(files)? {
        Reach::Line { body } => Ok(held_line(alloc, pieces, numbers, body, room)?),
        Reach::End if pieces.bytes().is_empty() => Ok(Read::End),
        Reach::End => Ok(unread(pieces.bytes().len() as u64, room)),
        Reach::Full if room < PIECE as u64 => Ok(Read::Long),
        Reach::Full if begins_row(pieces) => { long_row(alloc, pieces, numbers, files, room) }
        Reach::Full => {
            pieces.pass(PIECE);
            Ok(skip_line(pieces, files, room - PIECE as u64)?)
        }
    }
}
