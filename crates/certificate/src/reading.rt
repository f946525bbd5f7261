//! A certificate, read line by line.

ghost use Rattle.std.specs.Prelude.{◌≡◌, ◌≤◌, IfOk, IfErr, OnOk};
ghost use Rattle.certificate.specs.CertFaults.{IsOutside, is_cert_failed};
ghost use Rattle.certificate.specs.Readers.{CountsTaken, IsLineAnswer, IsLineFault, IsOpened, OnlyTakes, OpensFile, ahead, certificate_limit, new_reader};

use crate::LIMIT;
use crate::faults::CertFault;
use crate::lines::CertLine;
use crate::next_line::{Read, next_line};
use crate::pieces::Pieces;
use outside::Files;
use std::alloc::Global;
use std::marker::Model;

/// Reads the lines of a certificate. It keeps no reference to the files: each call is passed them.
///
/// The file is taken in pieces of up to 64 KiB. Memory doesn't grow with the file, and with a line only
/// where it is a row: then with its words. The cost is linear in the bytes.
#[derive(Drop)]
pub struct CertReader {
    alloc: Global,
    pieces: Pieces,
    numbers: Vec<u32>,
    given: u64,
    lines: u64,
    limit: u64,
}

impl Model for CertReader {
    ghost use Rattle.std.specs.Prelude.{◌≤◌, ◌+◌, length};
    ghost use Rattle.certificate.specs.Readers.{ReaderView, certificate_limit};

    ghost Value = { ReaderView };

    ghost view = { λ r. record {
      given = r.given;
      lines = r.lines;
      limit = r.limit;
      left = r.pieces.left;
      taken = r.pieces.taken;
    } };

    ghost invariant = { λ r. (r.given ≤ r.limit) × (r.limit ≤ certificate_limit)
        × (r.lines ≤ r.given) × (r.given + length r.pieces.left ≤ r.pieces.taken) };
}

impl CertReader {
    /// Begins to read the named file.
    pub fn begin<F: Files>(
        alloc: Global,
        files: &mut F,
        name: &str,
    ) -> Result<CertReader, CertFault>
        ensures reader { IfOk result (λ reader. reader ≡ new_reader certificate_limit) }
        ensures opened { OnOk result (IsOpened name.now (F.view files.old) (F.view files.new)) }
        ensures fault { IfErr result IsOutside }
        ensures opens { OpensFile name.now (is_cert_failed result)
            (F.view files.old) (F.view files.new) }
    {
        CertReader::begin_within(alloc, files, name, LIMIT)
    }

    /// Begins to read the named file, of which lines within `limit` bytes are given.
    pub fn begin_within<F: Files>(
        alloc: Global,
        files: &mut F,
        name: &str,
        limit: u64,
    ) -> Result<CertReader, CertFault>
        requires { limit ≤ certificate_limit }
        ensures reader { IfOk result (λ reader. reader ≡ new_reader limit) }
        ensures opened { OnOk result (IsOpened name.now (F.view files.old) (F.view files.new)) }
        ensures fault { IfErr result IsOutside }
        ensures opens { OpensFile name.now (is_cert_failed result)
            (F.view files.old) (F.view files.new) }
    {
        let pieces = Pieces::new(alloc)?;
        files.open_file(name)?;
        Ok(CertReader {
            alloc,
            pieces,
            numbers: Vec::new(alloc),
            given: 0,
            lines: 0,
            limit,
        })
    }

    /// How many lines were given.
    pub fn lines(&self) -> u64
        ensures lines { result ≡ self.now.lines }
        ensures few { self.now.lines ≤ certificate_limit }
    {
        self.lines
    }

    /// The next line, None at the end of the file. A last line without a line feed is the text of no
    /// line. After a refusal no further line may be asked for.
    pub fn line<F: Files>(&mut self, files: &mut F) -> Result<Option<CertLine>, CertFault>
        ensures answer { IfOk result (λ line. IsLineAnswer line self.old self.new
            (ahead self.old (F.view files.old)) (ahead self.new (F.view files.new))) }
        ensures fault { IfErr result (λ fault. IsLineFault fault self.old self.new
            (ahead self.old (F.view files.old))) }
        ensures limit { self.new.limit ≡ self.old.limit }
        ensures counts { CountsTaken self.old.taken self.new.taken
            (F.view files.old).rest (F.view files.new).rest }
        ensures takes { OnlyTakes (is_cert_failed result) (F.view files.old) (F.view files.new) }
    {
        let room = self.limit - self.given;
        match next_line(self.alloc, &mut self.pieces, &mut self.numbers, files, room) {
            Ok(Read::Line { line, len }) => {
                self.given += len;
                self.lines += 1;
                Ok(Some(line))
            }
            Ok(Read::End) => Ok(None),
            Ok(Read::Bad) => {
                self.pieces.clear();
                Err(CertFault::Bad {
                    line: self.lines + 1,
                })
            }
            Ok(Read::Long) => {
                self.pieces.clear();
                Err(CertFault::TooLong)
            }
            Err(fault) => {
                self.pieces.clear();
                Err(fault)
            }
        }
    }
}
