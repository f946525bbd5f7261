//! A whole text, written over calls that take as much as they like.

ghost use Rattle.std.specs.Prelude.{◌≡◌, ◌≤◌, length, OnOk, OnErr, IfSome, IsSome, IsTrue, option_map, if◌then◌else◌};
ghost use Rattle.std.specs.Io.KnownBytes.{append_known};
ghost use Rattle.outside.specs.Faults.{Rose, Steady, is_failed};
ghost use Rattle.outside.specs.Files.{FaultAt, Both, Extends, ExtendsByPrefix};
ghost use Rattle.outside.specs.Sink.{Puts};

use crate::{Files, OutsideFault, Sink, Way};

/// Puts all bytes. After a refusal a prefix of them was put, and how long it is isn't told.
pub fn write_all<S: Sink>(sink: &mut S, bytes: &[u8]) -> Result<(), OutsideFault>
    ensures { Puts bytes.now result (S.text sink.old) (S.text sink.new)
        (S.faults sink.old) (S.faults sink.new) }
{
    let mut done = 0;
    while done < bytes.len() {
        done += sink.put(&bytes[done..])?;
    }
    Ok(())
}

/// Adds all bytes to the file that is being written. After a refusal a prefix of them was added, and how long it is
/// isn't told. `Failed` comes only with a fault on writing this file in this call.
pub fn write_all_file<F: Files>(files: &mut F, bytes: &[u8]) -> Result<(), OutsideFault>
    requires { IsSome (F.view files.old).writing }
    ensures all { let before = F.view files.old in
        let after = F.view files.new in
        OnOk result
        (IfSome before.writing (λ name. Both (Extends name bytes.now) before.held after.held)) }
    ensures prefix { let before = F.view files.old in
        let after = F.view files.new in
        OnErr result (IfSome before.writing
        (λ name. ExtendsByPrefix name bytes.now before.held after.held)) }
    ensures writing { (F.view files.new).writing ≡ (F.view files.old).writing }
    ensures opened { (F.view files.new).opened ≡ (F.view files.old).opened }
    ensures latest { let before = F.view files.old in
        let after = F.view files.new in
        after.latest ≡ (if is_failed result
        then option_map (λ name. (name, Way.Writing)) before.writing else before.latest) }
    ensures later { (F.view files.old).faults ≤ (F.view files.new).faults }
    ensures failed { let before = F.view files.old in
        let after = F.view files.new in
        IsTrue (is_failed result) →
        IfSome before.writing (λ name. FaultAt name Way.Writing before after) }
    ensures steady { Steady (is_failed result) (F.view files.old).faults (F.view files.new).faults }
{
    let mut done = 0;
    while done < bytes.len() {
        done += files.put(&bytes[done..])?;
    }
    Ok(())
}
