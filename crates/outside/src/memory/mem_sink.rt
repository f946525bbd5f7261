//! A sink in memory that fails where it is told to, for tests of what stands above.

ghost use Rattle.std.specs.Prelude.{◌≡◌, ◌<◌, ◌≤◌, [], length, take, IfOk, OnErr, IsTrue, Some};
ghost use Rattle.std.specs.Io.KnownBytes.{append_known};
ghost use Rattle.outside.specs.Faults.{Rose, Steady, is_failed};
ghost use Rattle.outside.specs.Script.{AsDue, counted, is_listed, no_script};

use crate::memory::script::Script;
use crate::{OutsideFault, Sink};
use std::alloc::Global;
use std::marker::Model;

/// A text in memory, whose calls of [`Sink`] fail where [`fail_at`](MemSink::fail_at) lists them. Each other call takes
/// all that it is given.
#[derive(Drop)]
pub struct MemSink {
    text: Vec<u8>,
    faults: u64,
    script: Script,
}

impl Model for MemSink {
    ghost use Rattle.outside.specs.Mem.{MemSinkView};

    ghost Value = { MemSinkView };

    ghost view = { λ s. record { text = s.text.items; faults = s.faults; script = s.script } };
}

impl MemSink {
    /// No text, and no call that fails.
    pub fn new(alloc: Global) -> MemSink
        ensures { result ≡ record { text = []; faults = 0; script = no_script } }
    {
        MemSink {
            text: Vec::new(alloc),
            faults: 0,
            script: Script::new(alloc),
        }
    }

    /// The calls of [`Sink`] with these numbers fail, in the place of those listed before. The first call has the
    /// number 0, and calls made before this one are counted too. Each call looks through the list.
    pub fn fail_at(&mut self, calls: Vec<u64>)
        ensures { self.new ≡
            record self.old { script = record self.old.script { failing = calls.items } } }
    {
        self.script.fail_at(calls);
    }

    /// The text put so far.
    pub fn text(&self) -> &[u8]
        ensures { result.now ≡ self.now.text }
    {
        &self.text
    }
}

/// Each clause of the trait, and three more: a call takes all that it is given, the count of calls, and that a call
/// fails exactly where it is listed.
impl Sink for MemSink {
    ghost use Rattle.std.specs.Prelude.{Some};

    ghost text = { λ s. Some s.text };

    ghost faults = { λ s. s.faults };

    fn put(&mut self, piece: &[u8]) -> Result<usize, OutsideFault>
        requires { 0 < length piece.now }
        ensures taken { IfOk result (λ n. n ≤ length piece.now) }
        ensures some { IfOk result (λ n. 0 < n) }
        ensures appends { IfOk result (λ n. Some self.new.text ≡
            append_known (Some self.old.text) (take n piece.now)) }
        ensures refused { OnErr result (Some self.new.text ≡ Some self.old.text) }
        ensures later { self.old.faults ≤ self.new.faults }
        ensures failed { IsTrue (is_failed result) → Rose self.old.faults self.new.faults }
        ensures steady { Steady (is_failed result) self.old.faults self.new.faults }
        ensures all { IfOk result (λ n. n ≡ length piece.now) }
        ensures script { self.new.script ≡ counted self.old.script }
        ensures due { AsDue (is_listed self.old.script) result }
    {
        if self.script.fails() {
            self.faults = self.faults.saturating_add(1);
            return Err(OutsideFault::Failed);
        }
        self.text.extend_from_slice(piece)?;
        Ok(piece.len())
    }
}
