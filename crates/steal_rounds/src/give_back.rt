//! After the workers of a round: each thief goes back to its deque, and whatever a deque still has is worked.

ghost use Rattle.std.specs.Prelude.{◌≡◌, ◌≢◌, ◌+◌, ◌<◌, ℕ, length, Some, slice_get};
ghost use Rattle.steal_rounds.specs.declared.member.CrewMember.{CrewMember};
ghost use Rattle.steal_rounds.specs.MadeMoves.{HasGraph};
ghost use Rattle.steal_rounds.specs.inside.Moves.{IsLegalPass};
ghost use Rattle.steal_rounds.specs.inside.Crews.{IsRound};
ghost use Rattle.steal_rounds.specs.inside.Records.{AreBack, AreHeld, AreReturned, HadTurns};

use crate::gate::Gate;
use crate::member::CrewMember;
use crate::work::work;
use dist_table::DistTable;
use round_core::StepGraph;
use std::alloc::Global;
use std::sync::Wait;

/// Gives each thief back to its deque. The thieves of the first deque come first: each worker's list of thieves has
/// them at its end.
pub(crate) fn take_back_all(crew: &mut Vec<CrewMember>)
    requires { AreHeld 0 0 crew.old.items }
    ensures back { AreBack crew.new.items }
    ensures same { AreReturned crew.old.items crew.new.items }
{
    for victim in 0..crew.len() {
        take_back_of(crew, victim);
    }
}

/// Gives the thieves of a deque back.
fn take_back_of(crew: &mut Vec<CrewMember>, victim: usize)
    requires held { AreHeld victim 0 crew.old.items }
    requires below { victim < length crew.old.items }
    ensures held { AreHeld (victim + 1) 0 crew.new.items }
    ensures same { AreReturned crew.old.items crew.new.items }
{
    for worker in 0..crew.len() {
        if worker == victim {
            continue;
        }
        take_back(crew, victim, worker);
    }
}

/// Gives a worker's thief of a deque back.
fn take_back(crew: &mut Vec<CrewMember>, victim: usize, worker: usize)
    requires held { AreHeld victim worker crew.old.items }
    requires below { (victim < length crew.old.items)
        × (worker < length crew.old.items) × (worker ≢ victim) }
    ensures held { AreHeld victim (worker + 1) crew.new.items }
    ensures same { AreReturned crew.old.items crew.new.items }
{
    if let Some(thief) = crew[worker].thieves.pop() {
        crew[victim].deque.take_back(thief);
    }
}

/// Works what is left in the deques. Nothing is: but that each deque answers so with no thief out says that all was
/// taken.
pub(crate) fn work_rest<R: Wait, G: StepGraph, K: Gate>(
    rt: &R,
    alloc: Global,
    graph: &G,
    table: &DistTable<G>,
    gate: &K,
    frontier: &[u32],
    distance: u32,
    crew: &mut Vec<CrewMember>,
)
    requires graph { HasGraph table.now (G.origin graph.now) (G.lists graph.now) }
    requires round { IsRound table.now distance frontier.now }
    requires passes { (a : ℕ) (m : CrewMember) →
        slice_get crew.old.items a ≡ Some m → IsLegalPass table.now m.pass }
    ensures { HadTurns table.now distance frontier.now crew.old.items crew.new.items }
{
    for worker in 0..crew.len() {
        work(
            rt,
            alloc,
            graph,
            table,
            gate,
            frontier,
            distance,
            &mut crew[worker],
        );
    }
}
