//! What is called before each batch.

use std::sync::Wait;

/// What is called before each batch is worked, by the thread that works it. It may wait; it answers nothing, and what
/// the search finds doesn't depend on it.
pub trait Gate {
    /// Rounds count from 0. The worker is the one that took the batch, of its own or by stealing.
    fn before<R: Wait>(&self, rt: &R, round: u32, worker: u32, batch: u32);
}

/// The gate that returns at once.
pub struct NoGate;

impl Gate for NoGate {
    fn before<R: Wait>(&self, _rt: &R, _round: u32, _worker: u32, _batch: u32) {}
}
