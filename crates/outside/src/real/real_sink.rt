//! The runtime's standard output behind the trait `Sink`. It tells no text: that the system shows what was written is
//! trusted, and only the count of faults is proved.

ghost use Rattle.std.specs.Prelude.{◌≡◌};

use crate::{OutsideFault, Sink};

/// The standard output, each piece one call of the system. Each error of the system is a fault and raises the count,
/// which stays at its last value 2^64 - 1.
#[derive(Drop)]
pub struct RealSink<'a, R: Print> {
    rt: &'a R,
    faults: u64,
}

impl<'a, R: Print> RealSink<'a, R> {
    /// The standard output of this runtime, before any fault.
    pub fn new(rt: &'a R) -> RealSink<'a, R>
        ensures text { ⟦<RealSink<'a, R> as Sink>⟧.text result ≡ None }
        ensures faults { ⟦<RealSink<'a, R> as Sink>⟧.faults result ≡ 0 }
    {
        RealSink { rt, faults: 0 }
    }
}

impl<R: Print> Sink for RealSink<'_, R> {
    ghost use Rattle.std.specs.Prelude.{None};

    ghost text = { λ _. None };

    ghost faults = { λ s. s.faults };

    fn put(&mut self, piece: &[u8]) -> Result<usize, OutsideFault> {
        match self.rt.write_some(piece) {
            Ok(count) if count > 0 => Ok(count),
            _ => {
                self.faults = self.faults.saturating_add(1);
                Err(OutsideFault::Failed)
            }
        }
    }
}
