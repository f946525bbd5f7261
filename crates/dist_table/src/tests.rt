//! The worked example of the table, and two threads that lower one settled word beside each other.
ghost use Rattle.std.specs.Prelude.{◌≡◌};
ghost use Rattle.dist_table.specs.inside.Samples.{IsOfThree};

use crate::{DistTable, Pass};
use round_core::StepGraph;
use std::alloc::{AllocError, Global};
use std::marker::Sync;
use std::test::*;
use std::thread::{Threads, join_mut};

/// Three numbers: 0 leads to 1 and 2, 1 leads to 2.
#[derive(Drop)]
struct Three;

impl StepGraph for Three {
    ghost use Rattle.std.specs.Prelude.{◌≡◌, ◌<◌, ◌/◌, ◌%◌, drop};
    ghost use Rattle.graph_rules.specs.Graphs.{row};
    ghost use Rattle.dist_table.specs.inside.Samples.{three_lists};

    type Cursor = u32;

    ghost origin = { λ _. 0 };

    ghost lists = { λ _. three_lists };

    ghost left = { λ _ c. drop (c % 4) (row three_lists (c / 4)) };

    ghost owns = { λ _ c. c < 12 };

    ghost has_rank = { λ _ _ rank. rank ≡ 0 };

    fn count(&self) -> u32 {
        3
    }

    fn start(&self) -> u32 {
        0
    }

    fn first(&self, state: u32) -> u32 {
        state * 4
    }

    fn next(&self, cursor: &mut u32) -> Option<u32> {
        let target = match *cursor {
            0 => 1,
            1 | 4 => 2,
            _ => return None,
        };
        *cursor += 1;
        Some(target)
    }

    fn rank(&self, _state: u32) -> u32 {
        0
    }
}

/// The relax by the move from the start to 1.
fn to_one(table: &DistTable<Three>, pass: &mut Pass) -> u64
    requires { IsOfThree table.now pass.old }
    ensures { IsOfThree table.now pass.new }
{
    table.relax(pass, 1, 0, 0)
}

/// The relax by the move from the start to 2.
fn to_two(table: &DistTable<Three>, pass: &mut Pass) -> u64
    requires { IsOfThree table.now pass.old }
    ensures { IsOfThree table.now pass.new }
{
    table.relax(pass, 2, 0, 0)
}

/// The relax by the move from 1 to 2.
fn on_to_two(table: &DistTable<Three>, pass: &mut Pass) -> u64
    requires { IsOfThree table.now pass.old }
    ensures { IsOfThree table.now pass.new }
{
    table.relax(pass, 2, 1, 1)
}

/// The settled words as they are seen.
fn seen(table: &DistTable<Three>, pass: &mut Pass) -> (u64, u64, u64)
    requires { IsOfThree table.now pass.old }
    ensures { IsOfThree table.now pass.new }
{
    let first = table.look(pass, 0);
    let second = table.look(pass, 1);
    (first, second, table.look(pass, 2))
}

#[test]
fn each_call_answers_the_word_that_stood(rt: HostRuntime) -> Result<(), Fail> {
    let graph = Three;
    let (table, mut pass) = DistTable::new(rt.alloc(), &graph)?;
    assert_eq!(rt; seen(&table, &mut pass), (0, u64::MAX, u64::MAX));
    assert_eq!(rt; to_one(&table, &mut pass), u64::MAX);
    assert_eq!(rt; to_one(&table, &mut pass), 4294967296);
    assert_eq!(rt; on_to_two(&table, &mut pass), u64::MAX);
    assert_eq!(rt; to_two(&table, &mut pass), 8589934593);
    assert_eq!(rt; seen(&table, &mut pass), (0, 4294967296, 4294967296));
    assert_eq!(rt; on_to_two(&table, &mut pass), 4294967296);
    assert_eq!(rt; seen(&table, &mut pass), (0, 4294967296, 4294967296));
    let other = table.split(&mut pass)?;
    table.join(&mut pass, other);
    let words = table.close(pass)?;
    assert!(rt; words.as_slice() == [0, 4294967296, 4294967296].as_slice());
    Ok(())
}

/// One thread puts the walk of two moves to 2 while the other puts those of one move. Each looks on what the other
/// does.
fn lower_beside(
    rt: &(impl Threads + Sync),
    table: &DistTable<Three>,
    mine: &mut Pass,
    other: &mut Pass,
)
    requires mine { IsOfThree table.now mine.old }
    requires other { IsOfThree table.now other.old }
    ensures mine { IsOfThree table.now mine.new }
    ensures other { IsOfThree table.now other.new }
{
    let mut far = ||
        requires { IsOfThree table.now mine.now }
        ensures { IsOfThree table.entry.now mine.exit.now }
    {
        on_to_two(table, mine);
        seen(table, mine);
    };
    let mut near = ||
        requires { IsOfThree table.now other.now }
        ensures { IsOfThree table.entry.now other.exit.now }
    {
        to_one(table, other);
        to_two(table, other);
        seen(table, other);
    };
    join_mut(rt, &mut far, &mut near);
}

/// The settled words that two threads leave.
fn words_of_two(rt: &(impl Threads + Sync), alloc: Global) -> Result<Vec<u64>, AllocError> {
    let graph = Three;
    let (table, mut pass) = DistTable::new(alloc, &graph)?;
    let mut other = table.split(&mut pass)?;
    lower_beside(rt, &table, &mut pass, &mut other);
    table.join(&mut pass, other);
    table.close(pass)
}

#[test]
fn the_lesser_word_stays_whoever_comes_first(rt: HostRuntime) -> Result<(), Fail> {
    for _ in 0..100 {
        let words = words_of_two(&rt, rt.alloc())?;
        assert!(rt; words.as_slice() == [0, 4294967296, 4294967296].as_slice());
    }
    Ok(())
}
