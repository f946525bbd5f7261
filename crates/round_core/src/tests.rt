//! The searches and the machine over small graphs, and one schedule step by step.
ghost use Rattle.std.specs.Prelude.{◌≡◌, ◌<◌, ◌≤◌, length};

use crate::{Event, RoundState, StepGraph, search_plain};
use std::alloc::{AllocError, Global};
use std::test::*;

/// Three numbers: 0 leads to 1 and 2, 1 leads to 2.
#[derive(Drop)]
struct Three;

impl StepGraph for Three {
    ghost use Rattle.std.specs.Prelude.{◌≡◌, ◌<◌, ◌/◌, ◌%◌, [], ◌∷◌, drop};
    ghost use Rattle.graph_rules.specs.Graphs.{row};

    type Cursor = u32;

    ghost origin = { λ _. 0 };

    ghost lists = { λ _. (1 ∷ 2 ∷ []) ∷ (2 ∷ []) ∷ [] ∷ [] };

    ghost left = { λ _ c. drop (c % 4) (row ((1 ∷ 2 ∷ []) ∷ (2 ∷ []) ∷ [] ∷ []) (c / 4)) };

    ghost owns = { λ _ c. c < 12 };

    ghost has_rank = { λ _ _ rank. rank ≡ 0 };

    fn count(&self) -> u32 {
        3
    }

    fn start(&self) -> u32 {
        0
    }

    fn first(&self, state: u32) -> u32 {
        state * 4
    }

    fn next(&self, cursor: &mut u32) -> Option<u32> {
        let target = match *cursor {
            0 => 1,
            1 | 4 => 2,
            _ => return None,
        };
        *cursor += 1;
        Some(target)
    }

    fn rank(&self, _state: u32) -> u32 {
        0
    }
}

/// Numbers of `degree` targets each: the target of number s at place i is (s * factor + i * turn + shift) % count.
#[derive(Drop)]
struct Regular {
    count: u32,
    start: u32,
    degree: u32,
    factor: u32,
    turn: u32,
    shift: u32,
    ghost bound: { (count ≤ 33554432) × (start < count) × (degree < 65536) × (factor < 65536) × (turn < 65536) },
}

impl Regular {
    /// A graph of these numbers.
    fn new(count: u32, start: u32, degree: u32, factor: u32, turn: u32, shift: u32) -> Regular
        requires { (count ≤ 33554432) × (start < count) × (degree < 65536) × (factor < 65536) × (turn < 65536) }
        ensures { result.count ≡ count }
    {
        Regular {
            count,
            start,
            degree,
            factor,
            turn,
            shift,
        }
    }
}

#[derive(Drop)]
struct Place {
    state: u32,
    place: u32,
}

impl StepGraph for Regular {
    ghost use Rattle.std.specs.Prelude.{◌+◌, ◌*◌, ◌%◌, ◌<◌, ◌≤◌, drop, map};
    ghost use Rattle.std.specs.List.{range_with_len};

    type Cursor = Place;

    ghost origin = { λ g. g.start };

    ghost lists = { λ g. map (λ s. map (λ i. (s * g.factor + i * g.turn + g.shift) % g.count) (range_with_len 0 g.degree)) (range_with_len 0 g.count) };

    ghost left = { λ g c. drop c.place (map (λ i. (c.state * g.factor + i * g.turn + g.shift) % g.count) (range_with_len 0 g.degree)) };

    ghost owns = { λ g c. (c.state < g.count) × (c.place ≤ g.degree) };

    ghost has_rank = { λ _ _ rank. rank ≡ 0 };

    fn count(&self) -> u32 {
        self.count
    }

    fn start(&self) -> u32 {
        self.start
    }

    fn first(&self, state: u32) -> Place {
        Place { state, place: 0 }
    }

    fn next(&self, cursor: &mut Place) -> Option<u32> {
        if cursor.place >= self.degree {
            return None;
        }
        let from = u64::from(cursor.state) * u64::from(self.factor);
        let turned = u64::from(cursor.place) * u64::from(self.turn);
        let target = (from + turned + u64::from(self.shift)) % u64::from(self.count);
        cursor.place += 1;
        Some(target as u32)
    }

    fn rank(&self, _state: u32) -> u32 {
        0
    }
}

#[test]
fn one_schedule(rt: HostRuntime) -> Result<(), Fail> {
    let graph = Three;
    let mut machine = RoundState::new(rt.alloc(), &graph, 2)?;
    let steps = [
        (Event::Close, false),
        (Event::Begin { size: 0 }, false),
        (Event::Begin { size: 1 }, true),
        (Event::Begin { size: 1 }, false),
        (Event::Relax { worker: 0 }, false),
        (
            Event::Take {
                worker: 0,
                batch: 1,
            },
            false,
        ),
        (
            Event::Take {
                worker: 2,
                batch: 0,
            },
            false,
        ),
        (
            Event::Take {
                worker: 0,
                batch: 0,
            },
            true,
        ),
        (
            Event::Take {
                worker: 1,
                batch: 0,
            },
            false,
        ),
        (Event::Close, false),
        (Event::Relax { worker: 0 }, true),
        (Event::Relax { worker: 0 }, true),
        (Event::Relax { worker: 0 }, true),
        (Event::Relax { worker: 0 }, false),
        (Event::Close, true),
    ];
    for (event, enabled) in &steps {
        assert_eq!(rt; machine.step(*event), *enabled);
    }
    assert!(rt; machine.frontier() == [1, 2].as_slice());
    Ok(())
}

/// Does the events again and again, for long enough that two workers with batches of two numbers search eight moves.
fn drive(machine: &mut RoundState<'_, Regular>)
    ensures { machine.new.lists ≡ machine.old.lists }
{
    let turn = [
        Event::Begin { size: 2 },
        Event::Take {
            worker: 1,
            batch: 0,
        },
        Event::Take {
            worker: 0,
            batch: 1,
        },
        Event::Take {
            worker: 0,
            batch: 0,
        },
        Event::Relax { worker: 0 },
        Event::Relax { worker: 1 },
        Event::Close,
    ];
    for round in 0..40 {
        for event in &turn {
            machine.step(*event);
        }
    }
}

/// Whether the plain search gives these, and the machine the same settled words.
fn agree(
    alloc: Global,
    graph: &Regular,
    words: &[u64],
    rounds: u32,
    relaxed: u64,
) -> Result<bool, AllocError>
    requires { length words.now ≡ graph.now.count }
{
    let found = search_plain(alloc, graph)?;
    let plain = found.words() == words && found.rounds() == rounds && found.relaxed() == relaxed;
    let mut machine = RoundState::new(alloc, graph, 2)?;
    drive(&mut machine);
    let mut same = machine.frontier().is_empty();
    for state in 0..words.len() {
        same = same && machine.word(state as u32) == words[state];
    }
    Ok(plain && same)
}

#[test]
fn small_graphs(rt: HostRuntime) -> Result<(), Fail> {
    let three = search_plain(rt.alloc(), &Three)?;
    assert!(rt; three.words() == [0, 4294967296, 4294967296].as_slice());
    assert_eq!(rt; three.rounds(), 2);
    assert_eq!(rt; three.relaxed(), 3);
    let far = u64::MAX;
    // one number: without a target, and with itself as its target
    assert!(rt;
        agree(
            rt.alloc(),
            &Regular::new(1, 0, 0, 0, 0, 0),
            [0].as_slice(),
            1,
            0
        )?
    );
    assert!(rt;
        agree(
            rt.alloc(),
            &Regular::new(1, 0, 1, 0, 0, 0),
            [0].as_slice(),
            1,
            1
        )?
    );
    // numbers that aren't reached
    assert!(rt;
        agree(
            rt.alloc(),
            &Regular::new(3, 0, 1, 0, 0, 0),
            [0, far, far].as_slice(),
            1,
            1
        )?
    );
    assert!(rt;
        agree(
            rt.alloc(),
            &Regular::new(3, 1, 1, 0, 0, 2),
            [far, 0, 4294967297].as_slice(),
            2,
            2
        )?
    );
    // the same target twice
    assert!(rt;
        agree(
            rt.alloc(),
            &Regular::new(2, 0, 2, 0, 0, 1),
            [0, 4294967296].as_slice(),
            2,
            4
        )?
    );
    // a ring
    let ring = [0, 4294967296, 8589934593, 12884901890];
    assert!(rt;
        agree(
            rt.alloc(),
            &Regular::new(4, 0, 1, 1, 0, 1),
            ring.as_slice(),
            4,
            4
        )?
    );
    // 3 is found by 2 before the lesser 1 finds it
    let least = [0, 4294967296, 4294967296, 8589934593];
    assert!(rt;
        agree(
            rt.alloc(),
            &Regular::new(4, 0, 2, 1, 3, 2),
            least.as_slice(),
            3,
            8
        )?
    );
    Ok(())
}
