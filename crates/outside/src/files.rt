//! The trait of files: what a call reads, writes and leaves, and when it may blame a device.

ghost use Rattle.std.specs.Prelude.{◌≡◌, ◌<◌, ◌≤◌, ℕ, List, [], length, take, IfOk, OnOk, OnErr, IfSome, IsSome, IsTrue, option_map, Some, None, if◌then◌else◌, is_ok, is_err};
ghost use Rattle.std.specs.Io.KnownBytes.{prepend_known};
ghost use Rattle.outside.specs.Faults.{Rose, Steady, is_failed, is_memory};
ghost use Rattle.outside.specs.Files.{FilesView, LeavesAll, Both, Replaces, Extends};

use crate::{Failed, OutsideFault, Way};

/// Files by name, of which one may be open for reading and one for writing.
///
/// Contracts see six things: the files' bytes and the rest of the one that is being read, where the object tells them;
/// the name last opened and the name that is being written; the place of the latest fault; and the count of faults. The
/// count never falls. A call that answers `Failed` has raised it, or has found it at its last value 2^64 - 1, where it
/// stays. No other call changes it.
pub trait Files {
    ghost view: { Self → FilesView };

    /// Opens a file for reading: its bytes become the rest. A refusal leaves an empty rest. No file changes, and the
    /// name becomes the one last opened unless memory is wanted.
    fn open_file(&mut self, name: &str) -> Result<(), OutsideFault>
        ensures held { (view self.new).held ≡ (view self.old).held }
        ensures writing { (view self.new).writing ≡ (view self.old).writing }
        ensures rest { (view self.new).rest ≡
            option_map (λ files. if is_ok result then files name.now else []) (view self.old).held }
        ensures opened { (view self.new).opened ≡
            (if is_memory result then (view self.old).opened else Some name.now) }
        ensures latest { (view self.new).latest ≡
            (if is_failed result then Some (name.now, Way.Reading) else (view self.old).latest) }
        ensures later { (view self.old).faults ≤ (view self.new).faults }
        ensures failed { IsTrue (is_failed result) →
            Rose (view self.old).faults (view self.new).faults }
        ensures steady { Steady (is_failed result) (view self.old).faults (view self.new).faults };

    /// Moves the first bytes of the rest to the front of the slice, and answers how many: for a slice that isn't empty,
    /// 0 exactly at the end. A refusal moves none, and comes only after a name was opened.
    fn take(&mut self, into: &mut [u8]) -> Result<usize, Failed>
        ensures leaves { LeavesAll (view self.old) (view self.new) }
        ensures bound { IfOk result (λ n. n ≤ length into.new) }
        ensures moved { IfOk result (λ n. (view self.old).rest ≡
            prepend_known (take n into.new) (view self.new).rest) }
        ensures end { IfOk result (λ n. n ≡ 0 → 0 < length into.new →
            IfSome (view self.old).rest (λ rest. rest ≡ [])) }
        ensures refused { OnErr result ((view self.new).rest ≡ (view self.old).rest) }
        ensures has_name { OnErr result (IsSome (view self.old).opened) }
        ensures latest { let before = view self.old in
            let after = view self.new in
            after.latest ≡ (if is_err result
            then option_map (λ name. (name, Way.Reading)) before.opened else before.latest) }
        ensures later { (view self.old).faults ≤ (view self.new).faults }
        ensures failed { OnErr result (Rose (view self.old).faults (view self.new).faults) }
        ensures steady { Steady (is_err result) (view self.old).faults (view self.new).faults };

    /// Begins to write a file, which becomes empty. After a refusal all files are as they were and none is being
    /// written. The rest is empty afterwards in each case.
    fn begin(&mut self, name: &str) -> Result<(), OutsideFault>
        ensures emptied { OnOk result
            (Both (Replaces name.now []) (view self.old).held (view self.new).held) }
        ensures refused { OnErr result ((view self.new).held ≡ (view self.old).held) }
        ensures writing { (view self.new).writing ≡ (if is_ok result then Some name.now else None) }
        ensures opened { (view self.new).opened ≡ (view self.old).opened }
        ensures rest { (view self.new).rest ≡ option_map (λ _. []) (view self.old).held }
        ensures latest { (view self.new).latest ≡
            (if is_failed result then Some (name.now, Way.Writing) else (view self.old).latest) }
        ensures later { (view self.old).faults ≤ (view self.new).faults }
        ensures failed { IsTrue (is_failed result) →
            Rose (view self.old).faults (view self.new).faults }
        ensures steady { Steady (is_failed result) (view self.old).faults (view self.new).faults };

    /// Adds the first bytes of the piece to the file that is being written, and answers how many: at least 1. A refusal
    /// adds none.
    fn put(&mut self, piece: &[u8]) -> Result<usize, OutsideFault>
        requires writes { IsSome (view self.old).writing }
        requires has_bytes { 0 < length piece.now }
        ensures taken { IfOk result (λ n. n ≤ length piece.now) }
        ensures some { IfOk result (λ n. 0 < n) }
        ensures added { let before = view self.old in
            let after = view self.new in
            IfOk result (λ n. IfSome before.writing
            (λ name. Both (Extends name (take n piece.now)) before.held after.held)) }
        ensures refused { OnErr result ((view self.new).held ≡ (view self.old).held) }
        ensures writing { (view self.new).writing ≡ (view self.old).writing }
        ensures opened { (view self.new).opened ≡ (view self.old).opened }
        ensures latest { let before = view self.old in
            let after = view self.new in
            after.latest ≡ (if is_failed result
            then option_map (λ name. (name, Way.Writing)) before.writing else before.latest) }
        ensures later { (view self.old).faults ≤ (view self.new).faults }
        ensures failed { IsTrue (is_failed result) →
            Rose (view self.old).faults (view self.new).faults }
        ensures steady { Steady (is_failed result) (view self.old).faults (view self.new).faults };

    /// Ends the writing. Afterwards no file is being written, also after a refusal.
    fn end(&mut self) -> Result<(), Failed>
        requires { IsSome (view self.old).writing }
        ensures held { (view self.new).held ≡ (view self.old).held }
        ensures writing { (view self.new).writing ≡ None }
        ensures opened { (view self.new).opened ≡ (view self.old).opened }
        ensures latest { let before = view self.old in
            let after = view self.new in
            after.latest ≡ (if is_err result
            then option_map (λ name. (name, Way.Writing)) before.writing else before.latest) }
        ensures later { (view self.old).faults ≤ (view self.new).faults }
        ensures failed { OnErr result (Rose (view self.old).faults (view self.new).faults) }
        ensures steady { Steady (is_err result) (view self.old).faults (view self.new).faults };
}
