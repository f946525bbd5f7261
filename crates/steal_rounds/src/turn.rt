//! Work on each value of a slice, in as many threads.

ghost use Rattle.std.specs.Prelude.{All};
ghost use Rattle.std.specs.Thread.{IsSync, IsSend};
ghost use Rattle.steal_rounds.specs.inside.Lists.{Each};

use std::marker::{Send, Sync};
use std::sync::Wait;
use std::thread::{Threads, join_mut};

/// What is done with one value: from one that may take its turn, `turns` says what it becomes.
///
/// A closure that runs beside another may not name a type whose meaning rests on a bound's, as the table's does on the
/// graph's. So the fork knows its job by this trait alone.
pub trait Turn<M> {
    ghost may_turn: { Self → M → Type 0 };

    ghost turns: { Self → M → M → Type 0 };

    /// Does what is to be done with one value.
    fn turn<R: Wait>(&self, rt: &R, member: &mut M)
        requires { may_turn self.now member.old }
        ensures { turns self.now member.old member.new };
}

/// Takes each value's turn. Two halves are worked beside each other.
#[cycle(halves)]
pub fn turn_all<R: Threads + Wait + Sync, M: Send, T: Turn<M> + Sync>(
    rt: &R,
    job: &T,
    crew: &mut [M],
)
    requires { All (T.may_turn job.now) crew.old }
    ensures { Each (T.turns job.now) crew.old crew.new }
{
    if crew.len() >= 2 {
        let (low, high) = crew.split_at_mut(crew.len() / 2);
        turn_both(rt, job, low, high);
    } else if crew.len() == 1 {
        job.turn(rt, &mut crew[0]);
    }
}

/// The turns of two halves beside each other.
#[cycle(halves)]
fn turn_both<R: Threads + Wait + Sync, M: Send, T: Turn<M> + Sync>(
    rt: &R,
    job: &T,
    low: &mut [M],
    high: &mut [M],
)
    requires low { All (T.may_turn job.now) low.old }
    requires high { All (T.may_turn job.now) high.old }
    ensures low { Each (T.turns job.now) low.old low.new }
    ensures high { Each (T.turns job.now) high.old high.new }
{
    let mut left = ||
        requires { IsSync R.row × IsSend M.row × IsSync T.row × All (T.may_turn job.now) low.now }
        ensures { Each (T.turns job.entry.now) low.entry.now low.exit.now }
    { turn_all(rt, job, low) };
    let mut right = ||
        requires { IsSync R.row × IsSend M.row × IsSync T.row × All (T.may_turn job.now) high.now }
        ensures { Each (T.turns job.entry.now) high.entry.now high.exit.now }
    { turn_all(rt, job, high) };
    join_mut(rt, &mut left, &mut right);
}
