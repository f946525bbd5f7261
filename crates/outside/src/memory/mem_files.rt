//! Files in memory that fail where they are told to, for tests of what stands above.

ghost use Rattle.std.specs.Prelude.{◌≡◌, ◌<◌, ◌≤◌, ◌++◌, ◌&&◌, ◌||◌, ℕ, [], length, take, min, IfOk, OnOk, OnErr, IfSome, IsSome, IsTrue, option_map, Some, None, if◌then◌else◌, is_ok, is_err, is_some, is_none};
ghost use Rattle.std.specs.Io.KnownBytes.{prepend_known};
ghost use Rattle.outside.specs.Faults.{Rose, Steady, is_failed, is_memory};
ghost use Rattle.outside.specs.Files.{LeavesAll, Both, Replaces, Extends, untouched};
ghost use Rattle.outside.specs.HeldFiles.{held_of, Sets};
ghost use Rattle.outside.specs.Mem.{mem_kept, mem_script, mem_view};
ghost use Rattle.outside.specs.Script.{AsDue, counted, is_listed, no_script};

use crate::memory::held_files::HeldFiles;
use crate::memory::script::Script;
use crate::{Failed, Files, OutsideFault, Way};
use std::alloc::{AllocError, Global};

/// Files in memory, whose calls of [`Files`] fail where [`fail_at`](MemFiles::fail_at) lists them. To open a name that
/// isn't held is a fault too. A file that is opened is copied.
#[derive(Drop)]
pub struct MemFiles {
    files: HeldFiles,
    script: Script,
}

impl MemFiles {
    /// No files, and no call that fails.
    pub fn new(alloc: Global) -> MemFiles
        ensures kept { mem_kept result ≡ (λ _. None) }
        ensures view { mem_view result ≡ untouched (Some (λ _. [])) }
        ensures script { mem_script result ≡ no_script }
    {
        MemFiles {
            files: HeldFiles::new(alloc),
            script: Script::new(alloc),
        }
    }

    /// Holds a file with these bytes, in the place of one of that name.
    pub fn add(&mut self, name: &str, bytes: &[u8]) -> Result<(), AllocError>
        ensures ok { OnOk result (Sets name.now bytes.now (mem_kept self.old) (mem_kept self.new)) }
        ensures err { OnErr result (mem_kept self.new ≡ mem_kept self.old) }
        ensures view { mem_view self.new ≡
            record (mem_view self.old) { held = Some (held_of (mem_kept self.new)) } }
        ensures script { mem_script self.new ≡ mem_script self.old }
    {
        self.files.add(name, bytes)
    }

    /// The calls of [`Files`] with these numbers fail, in the place of those listed before. The first call has the
    /// number 0, and calls made before this one are counted too. A `take` where no name was opened doesn't fail. Each
    /// call looks through the list.
    pub fn fail_at(&mut self, calls: Vec<u64>)
        ensures kept { mem_kept self.new ≡ mem_kept self.old }
        ensures view { mem_view self.new ≡ mem_view self.old }
        ensures script { mem_script self.new ≡
            record (mem_script self.old) { failing = calls.items } }
    {
        self.script.fail_at(calls);
    }

    /// The bytes of the named file, where it is held.
    pub fn bytes(&self, name: &str) -> Option<&[u8]>
        ensures { option_map (λ bytes. bytes.now) result ≡ mem_kept self.now name.now }
    {
        self.files.bytes(name)
    }
}

/// Each clause of the trait, and four more: a call moves all that it can, which names are held, the count of calls, and
/// that a call fails exactly where it is listed, or opens a name that isn't held.
impl Files for MemFiles {
    ghost use Rattle.outside.specs.Mem.{mem_view};

    ghost view = { mem_view };

    fn open_file(&mut self, name: &str) -> Result<(), OutsideFault>
        ensures held { (mem_view self.new).held ≡ (mem_view self.old).held }
        ensures writing { (mem_view self.new).writing ≡ (mem_view self.old).writing }
        ensures rest { (mem_view self.new).rest ≡ option_map (λ files. if is_ok result
            then files name.now else []) (mem_view self.old).held }
        ensures opened { (mem_view self.new).opened ≡
            (if is_memory result then (mem_view self.old).opened else Some name.now) }
        ensures latest { (mem_view self.new).latest ≡ (if is_failed result
            then Some (name.now, Way.Reading) else (mem_view self.old).latest) }
        ensures later { (mem_view self.old).faults ≤ (mem_view self.new).faults }
        ensures failed { IsTrue (is_failed result) →
            Rose (mem_view self.old).faults (mem_view self.new).faults }
        ensures steady { Steady (is_failed result)
            (mem_view self.old).faults (mem_view self.new).faults }
        ensures kept { mem_kept self.new ≡ mem_kept self.old }
        ensures script { mem_script self.new ≡ counted (mem_script self.old) }
        ensures due { AsDue (is_listed (mem_script self.old)
            || is_none (mem_kept self.old name.now)) result }
    {
        if self.script.fails() || !self.files.holds(name) {
            self.files.fail_to_open(name)?;
            return Err(OutsideFault::Failed);
        }
        Ok(self.files.open(name)?)
    }

    fn take(&mut self, into: &mut [u8]) -> Result<usize, Failed>
        ensures leaves { LeavesAll (mem_view self.old) (mem_view self.new) }
        ensures bound { IfOk result (λ n. n ≤ length into.new) }
        ensures moved { IfOk result (λ n. (mem_view self.old).rest ≡
            prepend_known (take n into.new) (mem_view self.new).rest) }
        ensures end { IfOk result (λ n. n ≡ 0 → 0 < length into.new →
            IfSome (mem_view self.old).rest (λ rest. rest ≡ [])) }
        ensures refused { OnErr result ((mem_view self.new).rest ≡ (mem_view self.old).rest) }
        ensures has_name { OnErr result (IsSome (mem_view self.old).opened) }
        ensures latest { let before = mem_view self.old in
            let after = mem_view self.new in
            after.latest ≡ (if is_err result
            then option_map (λ name. (name, Way.Reading)) before.opened else before.latest) }
        ensures later { (mem_view self.old).faults ≤ (mem_view self.new).faults }
        ensures failed { OnErr result (Rose (mem_view self.old).faults (mem_view self.new).faults) }
        ensures steady { Steady (is_err result)
            (mem_view self.old).faults (mem_view self.new).faults }
        ensures all { IfOk result (λ n.
            IfSome (mem_view self.old).rest (λ rest. n ≡ min (length into.new) (length rest))) }
        ensures kept { mem_kept self.new ≡ mem_kept self.old }
        ensures script { mem_script self.new ≡ counted (mem_script self.old) }
        ensures due { is_err result ≡
            (is_listed (mem_script self.old) && is_some (mem_view self.old).opened) }
    {
        if self.script.fails() && self.files.has_opened() {
            self.files.note_reading();
            return Err(Failed);
        }
        Ok(self.files.take(into))
    }

    fn begin(&mut self, name: &str) -> Result<(), OutsideFault>
        ensures emptied { OnOk result
            (Both (Replaces name.now []) (mem_view self.old).held (mem_view self.new).held) }
        ensures refused { OnErr result ((mem_view self.new).held ≡ (mem_view self.old).held) }
        ensures writing { (mem_view self.new).writing ≡
            (if is_ok result then Some name.now else None) }
        ensures opened { (mem_view self.new).opened ≡ (mem_view self.old).opened }
        ensures rest { (mem_view self.new).rest ≡ option_map (λ _. []) (mem_view self.old).held }
        ensures latest { (mem_view self.new).latest ≡ (if is_failed result
            then Some (name.now, Way.Writing) else (mem_view self.old).latest) }
        ensures later { (mem_view self.old).faults ≤ (mem_view self.new).faults }
        ensures failed { IsTrue (is_failed result) →
            Rose (mem_view self.old).faults (mem_view self.new).faults }
        ensures steady { Steady (is_failed result)
            (mem_view self.old).faults (mem_view self.new).faults }
        ensures begun { OnOk result (Sets name.now [] (mem_kept self.old) (mem_kept self.new)) }
        ensures kept { OnErr result (mem_kept self.new ≡ mem_kept self.old) }
        ensures script { mem_script self.new ≡ counted (mem_script self.old) }
        ensures due { AsDue (is_listed (mem_script self.old)) result }
    {
        if self.script.fails() {
            self.files.fail_to_begin(name)?;
            return Err(OutsideFault::Failed);
        }
        Ok(self.files.begin(name)?)
    }

    fn put(&mut self, piece: &[u8]) -> Result<usize, OutsideFault>
        requires writes { IsSome (mem_view self.old).writing }
        requires has_bytes { 0 < length piece.now }
        ensures taken { IfOk result (λ n. n ≤ length piece.now) }
        ensures some { IfOk result (λ n. 0 < n) }
        ensures added { let before = mem_view self.old in
            let after = mem_view self.new in
            IfOk result (λ n. IfSome before.writing
            (λ name. Both (Extends name (take n piece.now)) before.held after.held)) }
        ensures refused { OnErr result ((mem_view self.new).held ≡ (mem_view self.old).held) }
        ensures writing { (mem_view self.new).writing ≡ (mem_view self.old).writing }
        ensures opened { (mem_view self.new).opened ≡ (mem_view self.old).opened }
        ensures latest { let before = mem_view self.old in
            let after = mem_view self.new in
            after.latest ≡ (if is_failed result
            then option_map (λ name. (name, Way.Writing)) before.writing else before.latest) }
        ensures later { (mem_view self.old).faults ≤ (mem_view self.new).faults }
        ensures failed { IsTrue (is_failed result) →
            Rose (mem_view self.old).faults (mem_view self.new).faults }
        ensures steady { Steady (is_failed result)
            (mem_view self.old).faults (mem_view self.new).faults }
        ensures grown { let kept = mem_kept self.old in
            IfOk result (λ n. IfSome (mem_view self.old).writing (λ name.
            Sets name (held_of kept name ++ take n piece.now) kept (mem_kept self.new))) }
        ensures all { IfOk result (λ n. n ≡ length piece.now) }
        ensures kept { OnErr result (mem_kept self.new ≡ mem_kept self.old) }
        ensures script { mem_script self.new ≡ counted (mem_script self.old) }
        ensures due { AsDue (is_listed (mem_script self.old)) result }
    {
        if self.script.fails() {
            self.files.note_writing();
            return Err(OutsideFault::Failed);
        }
        self.files.put(piece)?;
        Ok(piece.len())
    }

    fn end(&mut self) -> Result<(), Failed>
        requires { IsSome (mem_view self.old).writing }
        ensures held { (mem_view self.new).held ≡ (mem_view self.old).held }
        ensures writing { (mem_view self.new).writing ≡ None }
        ensures opened { (mem_view self.new).opened ≡ (mem_view self.old).opened }
        ensures latest { let before = mem_view self.old in
            let after = mem_view self.new in
            after.latest ≡ (if is_err result
            then option_map (λ name. (name, Way.Writing)) before.writing else before.latest) }
        ensures later { (mem_view self.old).faults ≤ (mem_view self.new).faults }
        ensures failed { OnErr result (Rose (mem_view self.old).faults (mem_view self.new).faults) }
        ensures steady { Steady (is_err result)
            (mem_view self.old).faults (mem_view self.new).faults }
        ensures kept { mem_kept self.new ≡ mem_kept self.old }
        ensures script { mem_script self.new ≡ counted (mem_script self.old) }
        ensures due { is_err result ≡ is_listed (mem_script self.old) }
    {
        let fails = self.script.fails();
        if fails {
            self.files.note_writing();
        }
        self.files.end();
        if fails { Err(Failed) } else { Ok(()) }
    }
}
