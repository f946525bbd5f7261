//! A sink in memory that never fails, by contract: over it no fault can be answered.

ghost use Rattle.std.specs.Io.KnownBytes.{append_known};
ghost use Rattle.outside.specs.Faults.{Rose, Steady, is_failed};
ghost use Rattle.std.specs.Prelude.{◌≡◌, [], ◌<◌, ◌≤◌, length, take, IfOk, OnErr, IsTrue, Some};

use crate::{OutsideFault, Sink};
use std::alloc::Global;
use std::marker::Model;

/// A text in memory whose count of faults is 0 for ever. Each call takes all that it is given.
#[derive(Drop)]
pub struct PlainSink {
    text: Vec<u8>,
}

impl Model for PlainSink {
    ghost use Rattle.std.specs.Prelude.{ℕ, List};

    ghost Value = { List ℕ };

    ghost view = { λ s. s.text.items };
}

impl PlainSink {
    /// No text.
    pub fn new(alloc: Global) -> PlainSink
        ensures { result ≡ [] }
    {
        PlainSink {
            text: Vec::new(alloc),
        }
    }

    /// The text put so far.
    pub fn text(&self) -> &[u8]
        ensures { result.now ≡ self.now }
    {
        &self.text
    }
}

/// Each clause of the trait, and that a call takes all that it is given.
impl Sink for PlainSink {
    ghost use Rattle.std.specs.Prelude.{Some};

    ghost text = { λ s. Some s };

    ghost faults = { λ _. 0 };

    fn put(&mut self, piece: &[u8]) -> Result<usize, OutsideFault>
        requires { 0 < length piece.now }
        ensures taken { IfOk result (λ n. n ≤ length piece.now) }
        ensures some { IfOk result (λ n. 0 < n) }
        ensures appends { IfOk result (λ n. Some self.new ≡
            append_known (Some self.old) (take n piece.now)) }
        ensures refused { OnErr result (Some self.new ≡ Some self.old) }
        ensures later { 0 ≤ 0 }
        ensures failed { IsTrue (is_failed result) → Rose 0 0 }
        ensures steady { Steady (is_failed result) 0 0 }
        ensures all { IfOk result (λ n. n ≡ length piece.now) }
    {
        self.text.extend_from_slice(piece)?;
        Ok(piece.len())
    }
}
