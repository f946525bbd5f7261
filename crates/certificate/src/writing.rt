//! A certificate, written line by line.

ghost use Rattle.std.specs.Prelude.{◌≡◌, ◌≤◌, ◌+◌, [], length, IfOk, IfErr, IsSome, OnOk, OnErr, Some};
ghost use Rattle.outside.specs.Files.{Both, Replaces};
ghost use Rattle.certificate.specs.CertFaults.{IsOutside, is_cert_failed};
ghost use Rattle.certificate.specs.CertLines.{line_text};
ghost use Rattle.certificate.specs.CertReading.{read_line};
ghost use Rattle.certificate.specs.Readers.{certificate_limit};
ghost use Rattle.certificate.specs.Writers.{AddsBytes, AddsPrefix, BeginsFile, EndsFile, HasWord, IsWriteFault, OnlyPuts};

use crate::LIMIT;
use crate::faults::CertFault;
use crate::lines::CertLine;
use crate::texts::push_line;
use outside::{Files, write_all_file};
use std::alloc::Global;
use std::marker::Model;

/// Writes the lines of a certificate. It keeps no reference to the files: each call is passed them.
/// Contracts see how many bytes were put.
///
/// An accepted line stands in the file. Each is put at once: the real files gather what is put, so that
/// many lines cost few calls of the system.
#[derive(Drop)]
pub struct CertWriter {
    text: Vec<u8>,
    put: u64,
}

impl Model for CertWriter {
    ghost use Rattle.std.specs.Prelude.{ℕ, ◌≤◌};
    ghost use Rattle.certificate.specs.Readers.{certificate_limit};

    ghost Value = { ℕ };

    ghost view = { λ w. w.put };

    ghost invariant = { λ w. w.put ≤ certificate_limit };
}

impl CertWriter {
    /// Begins to write the named file, which becomes empty. After a refusal all files are as they were.
    pub fn begin<F: Files>(
        alloc: Global,
        files: &mut F,
        name: &str,
    ) -> Result<CertWriter, CertFault>
        ensures writer { IfOk result (λ writer. writer ≡ 0) }
        ensures emptied { OnOk result (Both (Replaces name.now [])
            (F.view files.old).held (F.view files.new).held) }
        ensures refused { OnErr result ((F.view files.new).held ≡ (F.view files.old).held) }
        ensures fault { IfErr result IsOutside }
        ensures begins { BeginsFile name.now result (F.view files.old) (F.view files.new) }
    {
        files.begin(name)?;
        Ok(CertWriter {
            text: Vec::new(alloc),
            put: 0,
        })
    }

    /// Adds a line to the file that is being written; what is added is read as this line. `TooLong`
    /// exactly where more bytes than the limit would be put; then none of the line is written. After
    /// `Failed` or `Memory` a prefix of it may be, and no further line may be written.
    pub fn line<F: Files>(&mut self, files: &mut F, line: &CertLine) -> Result<(), CertFault>
        requires writes { IsSome (F.view files.old).writing }
        requires word { HasWord line.now }
        ensures added { OnOk result (AddsBytes (line_text line.now)
            (F.view files.old) (F.view files.new)) }
        ensures is_read { OnOk result (read_line (line_text line.now) ≡ Some line.now) }
        ensures count { OnOk result (self.new ≡ self.old + length (line_text line.now)) }
        ensures kept { OnErr result (self.new ≡ self.old) }
        ensures within { self.new ≤ certificate_limit }
        ensures prefix { OnErr result (AddsPrefix (line_text line.now)
            (F.view files.old) (F.view files.new)) }
        ensures fault { IfErr result (λ fault.
            IsWriteFault fault self.old (length (line_text line.now))
            (F.view files.old) (F.view files.new)) }
        ensures puts { OnlyPuts (is_cert_failed result) (F.view files.old) (F.view files.new) }
    {
        self.text.clear();
        push_line(&mut self.text, line)?;
        let len = self.text.len() as u64;
        if len > LIMIT - self.put {
            return Err(CertFault::TooLong);
        }
        write_all_file(files, &self.text)?;
        self.put += len;
        Ok(())
    }

    /// Ends the writing. No file's bytes change, and none is being written afterwards.
    pub fn end<F: Files>(self, files: &mut F) -> Result<(), CertFault>
        requires { IsSome (F.view files.old).writing }
        ensures fault { IfErr result (λ fault. fault ≡ CertFault.Failed) }
        ensures ends { EndsFile (is_cert_failed result) (F.view files.old) (F.view files.new) }
    {
        files.end()?;
        Ok(())
    }
}
