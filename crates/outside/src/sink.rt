//! The trait of an output that only grows, such as the standard output.

ghost use Rattle.std.specs.Prelude.{◌≡◌, ◌<◌, ◌≤◌, ℕ, List, length, take, IfOk, OnErr, IsTrue};
ghost use Rattle.std.specs.declared.option.Option.{Option};
ghost use Rattle.std.specs.Io.KnownBytes.{append_known};
ghost use Rattle.outside.specs.Faults.{Rose, Steady, is_failed};

use crate::OutsideFault;

/// An output. Contracts see the text put so far, where the object tells it, and the count of faults, which never falls.
/// A call that answers `Failed` has raised the count, or has found it at its last value 2^64 - 1, where it stays. No
/// other call changes it.
pub trait Sink {
    ghost text: { Self → Option (List ℕ) };

    ghost faults: { Self → ℕ };

    /// Puts the first bytes of the piece, and answers how many: at least 1. A refusal puts none.
    fn put(&mut self, piece: &[u8]) -> Result<usize, OutsideFault>
        requires { 0 < length piece.now }
        ensures taken { IfOk result (λ n. n ≤ length piece.now) }
        ensures some { IfOk result (λ n. 0 < n) }
        ensures appends { IfOk result (λ n. text self.new ≡
            append_known (text self.old) (take n piece.now)) }
        ensures refused { OnErr result (text self.new ≡ text self.old) }
        ensures later { faults self.old ≤ faults self.new }
        ensures failed { IsTrue (is_failed result) → Rose (faults self.old) (faults self.new) }
        ensures steady { Steady (is_failed result) (faults self.old) (faults self.new) };
}
