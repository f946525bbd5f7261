//! The runtime's files behind the trait `Files`. They tell no bytes: what the system reads and writes is trusted, and
//! only the names, the places of faults and their count are proved.

ghost use Rattle.std.specs.Prelude.{◌≡◌, None};
ghost use Rattle.outside.specs.Files.{untouched};

use crate::places::Places;
use crate::real::gathering::{GATHERED, make_room, write_out};
use crate::{Failed, Files, OutsideFault};
use std::alloc::Global;
use std::fs;
use std::io::{Read, Write};

/// Real files, one open for reading and one for writing at a time. Each error of the system is a fault and raises the
/// count, which stays at its last value 2^64 - 1. A folder can be opened, and then reading it fails. A piece that is
/// read is one call of the system. What is put is gathered: the system is given 64 KiB at once, and the rest when the
/// writing ends. So a file whose writing isn't ended may lack its last bytes. After a refused piece nothing more is
/// written to the file.
#[derive(Drop)]
pub struct RealFiles<'a, R: std::rt::Files> {
    rt: &'a R,
    places: Places,
    reading: Option<R::File>,
    writing: Option<R::File>,
    gathered: Vec<u8>,
}

impl<'a, R: std::rt::Files> RealFiles<'a, R> {
    /// Nothing is open.
    pub fn new(rt: &'a R, alloc: Global) -> RealFiles<'a, R>
        ensures { ⟦<RealFiles<'a, R> as Files>⟧.view result ≡ untouched None }
    {
        RealFiles {
            rt,
            places: Places::new(alloc),
            reading: None,
            writing: None,
            gathered: Vec::new(alloc),
        }
    }
}

impl<R: std::rt::Files> Files for RealFiles<'_, R> {
    ghost use Rattle.std.specs.Prelude.{None};

    ghost view = { λ s. record {
      held = None;
      rest = None;
      opened = s.places.opened;
      writing = s.places.writing;
      latest = s.places.latest;
      faults = s.places.faults;
    } };

    fn open_file(&mut self, name: &str) -> Result<(), OutsideFault> {
        self.reading = None;
        self.places.open(name)?;
        match fs::open(self.rt, name) {
            Ok(file) => {
                self.reading = Some(file);
                Ok(())
            }
            Err(_) => {
                self.places.note_reading();
                Err(OutsideFault::Failed)
            }
        }
    }

    fn take(&mut self, into: &mut [u8]) -> Result<usize, Failed> {
        // no file is open before a name was given, so that each fault has its name
        if !self.places.has_opened() {
            return Ok(0);
        }
        let Some(file) = &mut self.reading else {
            return Ok(0);
        };
        match file.read(into) {
            Ok(count) => Ok(count),
            Err(_) => {
                self.places.note_reading();
                Err(Failed)
            }
        }
    }

    fn begin(&mut self, name: &str) -> Result<(), OutsideFault> {
        self.reading = None;
        self.writing = None;
        self.gathered.clear();
        if self.gathered.reserve(GATHERED).is_err() {
            self.places.end();
            return Err(OutsideFault::Memory);
        }
        self.places.begin(name)?;
        match fs::create(self.rt, name) {
            Ok(file) => {
                self.writing = Some(file);
                Ok(())
            }
            Err(_) => {
                self.places.note_writing();
                self.places.end();
                Err(OutsideFault::Failed)
            }
        }
    }

    fn put(&mut self, piece: &[u8]) -> Result<usize, OutsideFault> {
        if !make_room(&mut self.writing, &mut self.gathered) {
            self.writing = None;
            self.places.note_writing();
            return Err(OutsideFault::Failed);
        }
        let count = piece.len().min(GATHERED - self.gathered.len());
        self.gathered.extend_from_slice(&piece[..count])?;
        Ok(count)
    }

    fn end(&mut self) -> Result<(), Failed> {
        let flushed = match &mut self.writing {
            Some(file) => write_out(file, &mut self.gathered) && file.flush().is_ok(),
            None => true,
        };
        if !flushed {
            self.places.note_writing();
        }
        self.writing = None;
        self.places.end();
        if flushed { Ok(()) } else { Err(Failed) }
    }
}
