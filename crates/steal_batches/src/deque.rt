//! The deque of a worker.
ghost use Rattle.std.specs.Prelude.{◌≡◌, ◌<◌, ◌≤◌, [], length, IfOk, IfSome, IfNone, OnErr};
ghost use Rattle.steal_batches.specs.declared.deque.TheConstants.{MOST_ROOM};
ghost use Rattle.steal_batches.specs.Deques.{with_offer, with_take, with_thief, without_thief, WasOffered, AreAllTaken};
ghost use Rattle.steal_batches.specs.Rules.{WasEmptyToOwner};

use crate::hand::Hand;
use crate::rule::{EachOnce, Hires, Offers, Takes, TakesBack};
use crate::thief::BatchThief;
use crossbeam_deque::Worker;
use std::alloc::{AllocError, Global};
use std::marker::Model;

/// The greatest room of a deque.
pub const MOST_ROOM: u32 = 524288;

/// A batch, and the worker that took it.
#[derive(Clone, Copy, Debug, PartialEq, Eq)]
pub struct Receipt {
    pub batch: u32,
    pub worker: u32,
}

/// A deque of batches, which one worker owns. Batches are taken at the front in the order in which they were offered,
/// by the worker and by its thieves.
#[derive(Drop)]
pub struct BatchDeque {
    deque: Worker<u32, Global, Hand, EachOnce>,
    worker: u32,
    room: u32,
    offers: u32,
}

impl Model for BatchDeque {
    ghost use Rattle.std.specs.Prelude.{◌≡◌, ◌≤◌, length};
    ghost use Rattle.crossbeam_deque.specs.Handles.{worker_deque, worker_flavor, worker_view, worker_capacity, worker_index};
    ghost use Rattle.steal_batches.specs.Deques.{DequeView};
    ghost use Rattle.steal_batches.specs.inside.Steps.{IsOwners};

    ghost Value = { DequeView };

    ghost view = { λ d. record {
      id = worker_deque d.deque;
      worker = d.worker;
      room = d.room;
      made = (worker_view d.deque).made;
      thieves = (worker_view d.deque).thieves;
      offered = (worker_view d.deque).offered;
      taken = (worker_view d.deque).taken;
    } };

    ghost invariant = { λ d.
        (worker_flavor d.deque ≡ 0)
        × IsOwners (worker_view d.deque)
        × (length (worker_view d.deque).offered ≡ d.offers)
        × (worker_index d.deque ≤ d.offers)
        × (d.offers ≤ d.room)
        × (d.room ≤ worker_capacity d.deque) };
}

impl BatchDeque {
    /// An empty deque of a worker, without thieves. It has room for this many offers in all, and takes the memory for
    /// them here. `AllocError` where that was refused.
    pub fn new(alloc: Global, worker: u32, room: u32) -> Result<BatchDeque, AllocError>
        requires some { 0 < room }
        requires most { room ≤ MOST_ROOM }
        ensures worker { IfOk result (λ d. (d.worker ≡ worker) × (d.room ≡ room)) }
        ensures batches { IfOk result (λ d. (d.offered ≡ []) × (d.taken ≡ [])) }
        ensures thieves { IfOk result (λ d. (d.made ≡ 0) × (d.thieves ≡ 0)) }
    {
        let deque = Worker::<u32, Global, Hand, EachOnce>::fifo_as(alloc, room as usize)?;
        Ok(BatchDeque {
            deque,
            worker,
            room,
            offers: 0,
        })
    }

    /// A thief of this deque for another worker, with a number that no other thief of the deque has. `AllocError` where
    /// the deque can't be shared once more; then it is as it was.
    pub fn thief(&mut self, worker: u32) -> Result<BatchThief, AllocError>
        ensures victim { IfOk result (λ t. (t.victim ≡ self.old.id) × (t.worker ≡ worker)) }
        ensures fresh { IfOk result (λ t. (t.number ≡ self.old.made) × (t.taken ≡ [])) }
        ensures deque { IfOk result (λ _. self.new ≡ with_thief self.old) }
        ensures refused { OnErr result (self.new ≡ self.old) }
    {
        let stealer = self.deque.stealer()?;
        let pass = self.deque.another::<Hires>();
        Ok(BatchThief {
            stealer,
            pass,
            worker,
        })
    }

    /// Adds a batch at the back. It can't be refused: the deque has room for it.
    pub fn offer(&mut self, batch: u32)
        requires { length self.old.offered < self.old.room }
        ensures { self.new ≡ with_offer self.old batch }
    {
        if self.deque.push_as::<Offers>(batch).is_err() {
            unreachable!()
        }
        self.offers += 1;
    }

    /// The first batch that nobody took. `None` only where the deque was empty at a moment of this call.
    ///
    /// A `None` while no thief is out says that every batch was taken as often as it was offered.
    pub fn take(&mut self) -> Option<Receipt>
        ensures worker { IfSome result (λ r. r.worker ≡ self.old.worker) }
        ensures taken { IfSome result (λ r. self.new ≡ with_take self.old r.batch) }
        ensures offered { IfSome result (λ r. WasOffered self.new r.batch) }
        ensures none { IfNone result (self.new ≡ self.old) }
        ensures empty { IfNone result (WasEmptyToOwner self.old) }
        ensures all { IfNone result (self.old.thieves ≡ 0 → AreAllTaken self.old) }
    {
        match self.deque.pop_as::<Takes>() {
            None => return None,
            Some(batch) => Some(Receipt {
                batch,
                worker: self.worker,
            }),
        }
    }

    /// Takes a thief back, with what it took. It takes no memory and waits for nobody.
    pub fn take_back(&mut self, thief: BatchThief)
        requires { thief.victim ≡ self.old.id }
        ensures { self.new ≡ without_thief self.old thief }
    {
        let BatchThief {
            stealer: _,
            pass,
            worker: _,
        } = thief;
        self.deque.absorb::<TakesBack>(pass);
    }

    /// The number of offers, and the end of the deque, of which each batch was taken as often as it was offered.
    pub fn close(self) -> u32
        requires { AreAllTaken self }
        ensures { result ≡ length self.offered }
    {
        self.offers
    }
}
