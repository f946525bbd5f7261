//! Files in memory that never fail, by contract: over them no fault can be answered.

ghost use Rattle.std.specs.Io.KnownBytes.{prepend_known};
ghost use Rattle.outside.specs.Faults.{Rose, Steady, is_failed};
ghost use Rattle.std.specs.Prelude.{◌≡◌, [], Some, OnOk, OnErr, ◌<◌, ◌≤◌, length, take, min, IfOk, IfSome, IsSome, IsTrue, option_map, if◌then◌else◌, is_err};
ghost use Rattle.outside.specs.Files.{Both, Replaces, untouched, LeavesAll, Extends};
ghost use Rattle.outside.specs.Mem.{plain_view};

use crate::memory::held_files::HeldFiles;
use crate::{Failed, Files, OutsideFault, Way};
use std::alloc::{AllocError, Global};

/// Files in memory whose count of faults is 0 for ever. A name that isn't held reads as an empty file. A file that is
/// opened is copied.
#[derive(Drop)]
pub struct PlainFiles {
    files: HeldFiles,
}

impl PlainFiles {
    /// No files.
    pub fn new(alloc: Global) -> PlainFiles
        ensures { plain_view result ≡ untouched (Some (λ _. [])) }
    {
        PlainFiles {
            files: HeldFiles::new(alloc),
        }
    }

    /// Holds a file with these bytes, in the place of one of that name.
    pub fn add(&mut self, name: &str, bytes: &[u8]) -> Result<(), AllocError>
        ensures ok { OnOk result (Both (Replaces name.now bytes.now)
            (plain_view self.old).held (plain_view self.new).held) }
        ensures err { OnErr result ((plain_view self.new).held ≡ (plain_view self.old).held) }
        ensures others { plain_view self.new ≡
            record (plain_view self.old) { held = (plain_view self.new).held } }
    {
        self.files.add(name, bytes)
    }
}

/// Each clause of the trait, and that `take` and `put` move all that they can.
impl Files for PlainFiles {
    ghost use Rattle.outside.specs.Mem.{plain_view};

    ghost view = { plain_view };

    fn open_file(&mut self, name: &str) -> Result<(), OutsideFault> {
        Ok(self.files.open(name)?)
    }

    fn take(&mut self, into: &mut [u8]) -> Result<usize, Failed>
        ensures leaves { LeavesAll (plain_view self.old) (plain_view self.new) }
        ensures bound { IfOk result (λ n. n ≤ length into.new) }
        ensures moved { IfOk result (λ n. (plain_view self.old).rest ≡
            prepend_known (take n into.new) (plain_view self.new).rest) }
        ensures end { IfOk result (λ n. n ≡ 0 → 0 < length into.new →
            IfSome (plain_view self.old).rest (λ rest. rest ≡ [])) }
        ensures refused { OnErr result ((plain_view self.new).rest ≡ (plain_view self.old).rest) }
        ensures has_name { OnErr result (IsSome (plain_view self.old).opened) }
        ensures latest { let before = plain_view self.old in
            let after = plain_view self.new in
            after.latest ≡ (if is_err result
            then option_map (λ name. (name, Way.Reading)) before.opened else before.latest) }
        ensures later { (plain_view self.old).faults ≤ (plain_view self.new).faults }
        ensures failed { OnErr result
            (Rose (plain_view self.old).faults (plain_view self.new).faults) }
        ensures steady { Steady (is_err result)
            (plain_view self.old).faults (plain_view self.new).faults }
        ensures all { IfOk result (λ n.
            IfSome (plain_view self.old).rest (λ rest. n ≡ min (length into.new) (length rest))) }
    {
        Ok(self.files.take(into))
    }

    fn begin(&mut self, name: &str) -> Result<(), OutsideFault> {
        Ok(self.files.begin(name)?)
    }

    fn put(&mut self, piece: &[u8]) -> Result<usize, OutsideFault>
        requires writes { IsSome (plain_view self.old).writing }
        requires has_bytes { 0 < length piece.now }
        ensures taken { IfOk result (λ n. n ≤ length piece.now) }
        ensures some { IfOk result (λ n. 0 < n) }
        ensures added { let before = plain_view self.old in
            let after = plain_view self.new in
            IfOk result (λ n. IfSome before.writing
            (λ name. Both (Extends name (take n piece.now)) before.held after.held)) }
        ensures refused { OnErr result ((plain_view self.new).held ≡ (plain_view self.old).held) }
        ensures writing { (plain_view self.new).writing ≡ (plain_view self.old).writing }
        ensures opened { (plain_view self.new).opened ≡ (plain_view self.old).opened }
        ensures latest { let before = plain_view self.old in
            let after = plain_view self.new in
            after.latest ≡ (if is_failed result
            then option_map (λ name. (name, Way.Writing)) before.writing else before.latest) }
        ensures later { (plain_view self.old).faults ≤ (plain_view self.new).faults }
        ensures failed { IsTrue (is_failed result) →
            Rose (plain_view self.old).faults (plain_view self.new).faults }
        ensures steady { Steady (is_failed result)
            (plain_view self.old).faults (plain_view self.new).faults }
        ensures all { IfOk result (λ n. n ≡ length piece.now) }
    {
        self.files.put(piece)?;
        Ok(piece.len())
    }

    fn end(&mut self) -> Result<(), Failed> {
        self.files.end();
        Ok(())
    }
}
