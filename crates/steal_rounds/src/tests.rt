//! Each number of workers finds what the plain search finds, batches are worked beside each other, and stolen.

ghost use Rattle.std.specs.Prelude.{◌≡◌, ◌≤◌};

use crate::samples::{Mixed, Three};
use crate::{Gate, NoGate, Searched, search, search_on};
use dist_table::DistTable;
use round_core::{Settled, StepGraph, search_plain};
use std::process::Abort;
use std::sync::Wait;
use std::sync::atomic::{AtomicU64, Ordering};
use std::test::*;
use std::thread;

#[test]
fn two_workers_search_on_a_table(rt: HostRuntime) -> Result<(), Fail> {
    let graph = Three;
    let (table, mut pass) = DistTable::new(rt.alloc(), &graph)?;
    let searched = search_on(&rt, rt.alloc(), &graph, &table, &mut pass, 2, &NoGate)?;
    assert_eq!(rt;
        searched,
        Searched {
            rounds: 2,
            relaxed: 3
        }
    );
    let words = table.close(pass)?;
    assert!(rt; words.as_slice() == [0, 4294967296, 4294967296].as_slice());
    Ok(())
}

/// The two searches found the same.
fn agree(rt: &impl Abort, found: &Settled, plain: &Settled) {
    assert!(rt; found.words() == plain.words());
    assert_eq!(rt; found.rounds(), plain.rounds());
    assert_eq!(rt; found.relaxed(), plain.relaxed());
}

#[test]
fn any_workers_find_the_plain_words_of_three(rt: HostRuntime) -> Result<(), Fail> {
    let graph = Three;
    let plain = search_plain(rt.alloc(), &graph)?;
    for workers in [1, 2, 8, 32] {
        agree(
            &rt,
            &search(&rt, rt.alloc(), &graph, workers, &NoGate)?,
            &plain,
        );
    }
    Ok(())
}

#[test]
fn any_workers_find_the_plain_words_of_many(rt: HostRuntime) -> Result<(), Fail> {
    let graph = Mixed { count: 3000 };
    let plain = search_plain(rt.alloc(), &graph)?;
    for workers in [1, 2, 3, 8, 32] {
        agree(
            &rt,
            &search(&rt, rt.alloc(), &graph, workers, &NoGate)?,
            &plain,
        );
    }
    Ok(())
}

/// A gate that counts its calls.
#[derive(Drop)]
struct Count {
    calls: AtomicU64,
}

impl Gate for Count {
    fn before<R: Wait>(&self, _rt: &R, _round: u32, _worker: u32, _batch: u32) {
        self.calls.fetch_add(1, Ordering::SeqCst);
    }
}

#[test]
fn the_gate_is_called_before_each_batch(rt: HostRuntime) -> Result<(), Fail> {
    let graph = Mixed { count: 3000 };
    for workers in [1, 2, 8] {
        let gate = Count {
            calls: AtomicU64::new(0),
        };
        search(&rt, rt.alloc(), &graph, workers, &gate)?;
        assert_eq!(rt; gate.calls.load(Ordering::SeqCst), 4 + 3 + 9 + 18 + 14 + 3);
    }
    Ok(())
}

/// A gate that holds two batches of the fourth round, each until the other is at the gate, but for no more turns than
/// this.
#[derive(Drop)]
struct Meeting {
    first: u32,
    second: u32,
    first_came: AtomicU64,
    second_came: AtomicU64,
    met: AtomicU64,
}

const TURNS: u32 = 20000000;

impl Meeting {
    /// A meeting of these two workers, to which nobody came yet.
    fn of(first: u32, second: u32) -> Meeting {
        Meeting {
            first,
            second,
            first_came: AtomicU64::new(0),
            second_came: AtomicU64::new(0),
            met: AtomicU64::new(0),
        }
    }

    /// Notes who came, and waits a while for the other.
    fn meet(&self, mine: &AtomicU64, other: &AtomicU64) {
        mine.store(1, Ordering::SeqCst);
        for _turn in 0..TURNS {
            if other.load(Ordering::SeqCst) == 1 {
                self.met.fetch_add(1, Ordering::SeqCst);
                return;
            }
            thread::yield_now();
        }
    }
}

impl Gate for Meeting {
    fn before<R: Wait>(&self, _rt: &R, round: u32, _worker: u32, batch: u32) {
        if round == 4 && batch == self.first {
            self.meet(&self.first_came, &self.second_came);
        }
        if round == 4 && batch == self.second {
            self.meet(&self.second_came, &self.first_came);
        }
    }
}

#[test]
fn two_batches_are_worked_beside_each_other(rt: HostRuntime) -> Result<(), Fail> {
    let gate = Meeting::of(0, 1);
    search(&rt, rt.alloc(), &Mixed { count: 3000 }, 2, &gate)?;
    assert_eq!(rt; gate.met.load(Ordering::SeqCst), 2);
    Ok(())
}

#[test]
fn the_second_batch_of_a_held_worker_is_stolen(rt: HostRuntime) -> Result<(), Fail> {
    let gate = Meeting::of(0, 2);
    search(&rt, rt.alloc(), &Mixed { count: 3000 }, 2, &gate)?;
    assert_eq!(rt; gate.met.load(Ordering::SeqCst), 2);
    Ok(())
}
