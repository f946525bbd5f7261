//! The thief of a deque.
ghost use Rattle.std.specs.Prelude.{◌≡◌, IfSome, IfNone};
ghost use Rattle.crossbeam_deque.specs.Steals.{MatchSteal};
ghost use Rattle.steal_batches.specs.Deques.{with_loot};
ghost use Rattle.steal_batches.specs.Rules.{WasEmptyToThief};

use crate::deque::Receipt;
use crate::hand::Hand;
use crate::rule::{EachOnce, Takes};
use crossbeam_deque::{Pass, Steal, Stealer};
use std::alloc::Global;
use std::marker::Model;
use std::sync::Wait;

/// A thief of one deque, for another worker than the deque's.
#[derive(Drop)]
pub struct BatchThief {
    pub(crate) stealer: Stealer<u32, Global, Hand, EachOnce>,
    pub(crate) pass: Pass<u32, Hand>,
    pub(crate) worker: u32,
}

impl Model for BatchThief {
    ghost use Rattle.std.specs.Prelude.{◌≡◌};
    ghost use Rattle.crossbeam_deque.specs.Handles.{view as pass_view, IsPassOf, stealer_deque, stealer_flavor};
    ghost use Rattle.steal_batches.specs.Deques.{ThiefView};
    ghost use Rattle.steal_batches.specs.inside.Steps.{IsThiefs};

    ghost Value = { ThiefView };

    ghost view = { λ t. record {
      victim = stealer_deque t.stealer;
      worker = t.worker;
      number = (pass_view t.pass).number;
      taken = (pass_view t.pass).taken;
    } };

    ghost invariant = { λ t.
        IsPassOf (stealer_deque t.stealer) t.pass
        × (stealer_flavor t.stealer ≡ 0)
        × IsThiefs (pass_view t.pass) };
}

impl BatchThief {
    /// The first batch that nobody took. `None` only where the deque was empty at a step of this call.
    ///
    /// An attempt that lost against another thread is made again, so the call may wait.
    pub fn steal<R: Wait>(&mut self, rt: &R) -> Option<Receipt>
        ensures worker { IfSome result (λ r. r.worker ≡ self.old.worker) }
        ensures taken { IfSome result (λ r. self.new ≡ with_loot self.old r.batch) }
        ensures none { IfNone result (self.new ≡ self.old) }
        ensures empty { IfNone result (WasEmptyToThief self.old) }
    {
        for _ in rt.forever() {
            match self.attempt() {
                Steal::Success(receipt) => return Some(receipt),
                Steal::Empty => return None,
                Steal::Retry => {}
            }
        }
        unreachable!()
    }

    /// One attempt.
    fn attempt(&mut self) -> Steal<Receipt>
        ensures { MatchSteal result
            ((self.new ≡ self.old) × WasEmptyToThief self.old)
            (self.new ≡ self.old)
            (λ r. (r.worker ≡ self.old.worker) × (self.new ≡ with_loot self.old r.batch)) }
    {
        match self.stealer.steal_as::<Takes>(&mut self.pass) {
            Steal::Success(batch) => Steal::Success(Receipt {
                batch,
                worker: self.worker,
            }),
            Steal::Empty => Steal::Empty,
            Steal::Retry => Steal::Retry,
        }
    }
}
