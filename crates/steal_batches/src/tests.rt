//! The worked example of the deque, and an owner and a thief that take beside each other.
ghost use Rattle.std.specs.Prelude.{◌≡◌, IfOk};
ghost use Rattle.std.specs.Thread.{IsSync};

use crate::{BatchDeque, BatchThief, Receipt};
use std::alloc::{AllocError, Global};
use std::marker::Sync;
use std::process::Abort;
use std::sync::Wait;
use std::test::*;
use std::thread::{Threads, join_mut};

#[test]
fn batches_come_in_order_to_whoever_takes(rt: HostRuntime) -> Result<(), Fail> {
    let mut deque = BatchDeque::new(rt.alloc(), 0, 2)?;
    deque.offer(0);
    deque.offer(1);
    let mut thief = deque.thief(1)?;
    assert_eq!(rt;
        thief.steal(&rt),
        Some(Receipt {
            batch: 0,
            worker: 1
        })
    );
    assert_eq!(rt;
        deque.take(),
        Some(Receipt {
            batch: 1,
            worker: 0
        })
    );
    assert_eq!(rt; deque.take(), None);
    assert_eq!(rt; thief.steal(&rt), None);
    deque.take_back(thief);
    assert_eq!(rt; closed(&rt, deque), 2);
    Ok(())
}

/// The number of offers of a deque whose thieves are back and in which nothing is left.
fn closed(rt: &impl Abort, mut deque: BatchDeque) -> u32
    requires { deque.thieves ≡ 0 }
{
    match deque.take() {
        None => deque.close(),
        Some(_) => panic!(rt; "a batch was left"),
    }
}

/// What a thread took: how many batches, and which of the 64.
#[derive(Clone, Copy)]
struct Loot {
    count: u32,
    set: u64,
}

impl Loot {
    /// The same with one batch more.
    fn with(self, receipt: Receipt) -> Loot {
        Loot {
            count: self.count.wrapping_add(1),
            set: self.set | 1 << (receipt.batch % 64),
        }
    }
}

/// What the owner takes until nothing is left.
fn take_all(deque: &mut BatchDeque) -> Loot
    ensures same { (deque.new.id ≡ deque.old.id) × (deque.new.thieves ≡ deque.old.thieves) }
{
    let mut loot = Loot { count: 0, set: 0 };
    for _turn in 0..100 {
        match deque.take() {
            None => return loot,
            Some(receipt) => loot = loot.with(receipt),
        }
    }
    loot
}

/// What the thief steals until nothing is left.
fn steal_all(rt: &impl Wait, thief: &mut BatchThief) -> Loot
    ensures { thief.new.victim ≡ thief.old.victim }
{
    let mut loot = Loot { count: 0, set: 0 };
    for _turn in 0..100 {
        match thief.steal(rt) {
            None => return loot,
            Some(receipt) => loot = loot.with(receipt),
        }
    }
    loot
}

/// Takes and steals beside each other.
fn take_beside<R: Threads + Wait + Sync>(
    rt: &R,
    deque: &mut BatchDeque,
    thief: &mut BatchThief,
) -> (Loot, Loot)
    ensures deque { (deque.new.id ≡ deque.old.id) × (deque.new.thieves ≡ deque.old.thieves) }
    ensures thief { thief.new.victim ≡ thief.old.victim }
{
    let mut owner = || -> Loot
        ensures { (deque.exit.now.id ≡ deque.entry.now.id)
            × (deque.exit.now.thieves ≡ deque.entry.now.thieves) }
    { take_all(deque) };
    let mut other = || -> Loot
        requires { IsSync R.row }
        ensures { thief.exit.now.victim ≡ thief.entry.now.victim }
    { steal_all(rt, thief) };
    join_mut(rt, &mut owner, &mut other)
}

/// A deque with the batches 0 to 63.
fn full_deque(alloc: Global) -> Result<BatchDeque, AllocError>
    ensures { IfOk result (λ d. d.thieves ≡ 0) }
{
    let mut deque = BatchDeque::new(alloc, 0, 64)?;
    for batch in 0..64 {
        deque.offer(batch);
    }
    Ok(deque)
}

/// Sixty-four batches, each taken by one of two threads.
fn share_out(rt: &(impl Threads + Wait + Sync + Abort), alloc: Global) -> Result<(), AllocError> {
    let mut deque = full_deque(alloc)?;
    let mut thief = deque.thief(1)?;
    let (taken, stolen) = take_beside(rt, &mut deque, &mut thief);
    deque.take_back(thief);
    assert_eq!(rt; closed(rt, deque), 64);
    assert_eq!(rt; taken.count.wrapping_add(stolen.count), 64);
    assert_eq!(rt; taken.set | stolen.set, u64::MAX);
    Ok(())
}

#[test]
fn each_batch_is_taken_once(rt: HostRuntime) -> Result<(), Fail> {
    for _run in 0..100 {
        share_out(&rt, rt.alloc())?;
    }
    Ok(())
}
