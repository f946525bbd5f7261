//! One round over all workers.

ghost use Rattle.std.specs.Prelude.{◌≡◌, ◌<◌, ◌≤◌, ℕ, All, length, IfOk};
ghost use Rattle.graph_rules.specs.Graphs.{most_numbers};
ghost use Rattle.round_core.specs.inside.InRounds.{moves_of};
ghost use Rattle.round_core.specs.Rounds.{Has, AreRisingNumbers};
ghost use Rattle.steal_rounds.specs.MadeMoves.{HasGraph};
ghost use Rattle.steal_rounds.specs.inside.Lists.{Each};
ghost use Rattle.steal_rounds.specs.inside.Moves.{IsLaterPass, IsLegalPass};
ghost use Rattle.steal_rounds.specs.inside.Crews.{IsRound, Turned};
ghost use Rattle.steal_rounds.specs.inside.Fronts.{IsWorked};

use crate::alone::work_alone;
use crate::gate::Gate;
use crate::gather::{collect, join_all};
use crate::give_back::{take_back_all, work_rest};
use crate::make::make_crew;
use crate::member::CrewMember;
use crate::turn::turn_all;
use crate::work::Round;
use dist_table::{DistTable, Pass};
use round_core::StepGraph;
use std::alloc::{AllocError, Global};
use std::marker::{Send, Sync};
use std::sync::Wait;
use std::thread::Threads;

/// Each worker works batches until there is none to take.
fn run_round<R: Threads + Wait + Sync, G: StepGraph + Sync, K: Gate + Sync>(
    rt: &R,
    alloc: Global,
    graph: &G,
    table: &DistTable<G>,
    gate: &K,
    frontier: &[u32],
    distance: u32,
    crew: &mut [CrewMember],
)
where
    G::Cursor: Send,
    requires graph { HasGraph table.now (G.origin graph.now) (G.lists graph.now) }
    requires round { IsRound table.now distance frontier.now }
    requires passes { All (λ m. IsLegalPass table.now m.pass) crew.old }
    ensures { Each (Turned table.now distance frontier.now) crew.old crew.new }
{
    let round = Round {
        alloc,
        graph: &*graph,
        table: &*table,
        gate: &*gate,
        frontier: &*frontier,
        distance,
    };
    turn_all(rt, &round, crew);
}

/// A whole round: what was noted, and how many moves were made. A round of one batch wakes nobody.
pub(crate) fn work_round<R: Threads + Wait + Sync, G: StepGraph + Sync, K: Gate + Sync>(
    rt: &R,
    alloc: Global,
    graph: &G,
    table: &DistTable<G>,
    gate: &K,
    pass: &mut Pass,
    workers: u32,
    frontier: &[u32],
    distance: u32,
) -> Result<(Vec<u32>, u64), AllocError>
where
    G::Cursor: Send,
    requires graph { HasGraph table.now (G.origin graph.now) (G.lists graph.now) }
    requires round { IsRound table.now distance frontier.now }
    requires pass { IsLegalPass table.now pass.old }
    requires workers { 1 ≤ workers }
    requires size { (0 < length frontier.now) × (length frontier.now ≤ most_numbers) }
    ensures pass { IsLaterPass table.now pass.old pass.new }
    ensures worked { IfOk result
        (λ r. IsWorked table.now distance frontier.now pass.old.seen pass.new.seen r.0.items) }
    ensures counted { IfOk result (λ r. r.1 ≡ moves_of table.now.lists frontier.now) }
{
    if workers == 1 || frontier.len() <= 64 {
        return work_alone(rt, alloc, graph, table, gate, pass, frontier, distance);
    }
    work_together(
        rt, alloc, graph, table, gate, pass, workers, frontier, distance,
    )
}

/// A whole round by several workers: what they noted, and how many moves they made. Whatever is refused, their passes
/// are joined.
fn work_together<R: Threads + Wait + Sync, G: StepGraph + Sync, K: Gate + Sync>(
    rt: &R,
    alloc: Global,
    graph: &G,
    table: &DistTable<G>,
    gate: &K,
    pass: &mut Pass,
    workers: u32,
    frontier: &[u32],
    distance: u32,
) -> Result<(Vec<u32>, u64), AllocError>
where
    G::Cursor: Send,
    requires graph { HasGraph table.now (G.origin graph.now) (G.lists graph.now) }
    requires round { IsRound table.now distance frontier.now }
    requires pass { IsLegalPass table.now pass.old }
    requires workers { 1 ≤ workers }
    requires size { (0 < length frontier.now) × (length frontier.now ≤ most_numbers) }
    ensures pass { IsLaterPass table.now pass.old pass.new }
    ensures worked { IfOk result
        (λ r. IsWorked table.now distance frontier.now pass.old.seen pass.new.seen r.0.items) }
    ensures counted { IfOk result (λ r. r.1 ≡ moves_of table.now.lists frontier.now) }
{
    let batches = ((frontier.len() + 63) / 64) as u32;
    let mut crew = make_crew(alloc, table, pass, workers.min(batches), batches)?;
    run_round(
        rt,
        alloc,
        graph,
        table,
        gate,
        frontier,
        distance,
        crew.as_mut_slice(),
    );
    take_back_all(&mut crew);
    work_rest(rt, alloc, graph, table, gate, frontier, distance, &mut crew);
    let found = collect(alloc, crew.as_slice());
    join_all(table, pass, crew);
    found
}

/// The numbers in rising order, each once.
pub(crate) fn rise(notes: &mut Vec<u32>) -> Result<(), AllocError>
    ensures some { IfOk result (λ _. (u : ℕ) → Has notes.new.items u → Has notes.old.items u) }
    ensures all { IfOk result (λ _. (u : ℕ) → Has notes.old.items u → Has notes.new.items u) }
    ensures rising { IfOk result (λ _. AreRisingNumbers notes.new.items) }
{
    notes.sort()?;
    notes.dedup();
    Ok(())
}
