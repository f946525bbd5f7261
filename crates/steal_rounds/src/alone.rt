//! A round that the calling thread works by itself.

ghost use Rattle.std.specs.Prelude.{◌≡◌, ◌<◌, ◌≤◌, length, IfOk};
ghost use mathlib.Core.List.{IsPrefix};
ghost use Rattle.graph_rules.specs.Graphs.{most_numbers};
ghost use Rattle.round_core.specs.inside.InRounds.{moves_of};
ghost use Rattle.steal_rounds.specs.MadeMoves.{HasGraph};
ghost use Rattle.steal_rounds.specs.inside.Moves.{AddsFound, IsLaterPass, IsLegalPass, Worked};
ghost use Rattle.steal_rounds.specs.inside.Crews.{IsRound};
ghost use Rattle.steal_rounds.specs.inside.Fronts.{IsWorked};

use crate::gate::Gate;
use crate::spread::spread;
use dist_table::{DistTable, Pass};
use round_core::StepGraph;
use std::alloc::{AllocError, Global};
use std::sync::Wait;

/// A whole round with the caller's pass: what was noted, in rising order, and how many moves were made. The gate is
/// called for each batch in turn, as if worker 0 took them.
pub(crate) fn work_alone<R: Wait, G: StepGraph, K: Gate>(
    rt: &R,
    alloc: Global,
    graph: &G,
    table: &DistTable<G>,
    gate: &K,
    pass: &mut Pass,
    frontier: &[u32],
    distance: u32,
) -> Result<(Vec<u32>, u64), AllocError>
    requires graph { HasGraph table.now (G.origin graph.now) (G.lists graph.now) }
    requires round { IsRound table.now distance frontier.now }
    requires pass { IsLegalPass table.now pass.old }
    requires few { length frontier.now ≤ most_numbers }
    ensures pass { IsLaterPass table.now pass.old pass.new }
    ensures worked { IfOk result
        (λ r. IsWorked table.now distance frontier.now pass.old.seen pass.new.seen r.0.items) }
    ensures counted { IfOk result (λ r. r.1 ≡ moves_of table.now.lists frontier.now) }
{
    let mut notes = Vec::new(alloc);
    let moves = spread_gated(
        rt, alloc, graph, table, gate, pass, frontier, distance, &mut notes,
    )?;
    notes.sort_unstable();
    Ok((notes, moves))
}

/// Makes each move of each state, and answers how many.
fn spread_gated<R: Wait, G: StepGraph, K: Gate>(
    rt: &R,
    alloc: Global,
    graph: &G,
    table: &DistTable<G>,
    gate: &K,
    pass: &mut Pass,
    frontier: &[u32],
    distance: u32,
    notes: &mut Vec<u32>,
) -> Result<u64, AllocError>
    requires graph { HasGraph table.now (G.origin graph.now) (G.lists graph.now) }
    requires round { IsRound table.now distance frontier.now }
    requires pass { IsLegalPass table.now pass.old }
    requires few { length frontier.now ≤ most_numbers }
    ensures pass { IsLaterPass table.now pass.old pass.new }
    ensures notes { IsPrefix notes.old.items notes.new.items }
    ensures adds { AddsFound table.now
        distance frontier.now pass.old.seen pass.new.seen notes.old.items notes.new.items }
    ensures made { IfOk result
        (λ _. Worked table.now distance pass.new.seen notes.new.items frontier.now) }
    ensures count { IfOk result (λ moves. moves ≡ moves_of table.now.lists frontier.now) }
{
    let mut targets = Vec::new(alloc);
    let mut moves = 0;
    for place in 0..frontier.len() {
        knock(rt, gate, distance, place);
        moves += spread(
            graph,
            table,
            distance,
            frontier[place],
            pass,
            &mut targets,
            notes,
        )?;
    }
    Ok(moves)
}

/// The gate is called where a batch begins at this place of the frontier.
fn knock<R: Wait, K: Gate>(rt: &R, gate: &K, round: u32, place: usize)
    requires { place < most_numbers }
{
    if place % 64 == 0 {
        gate.before(rt, round, 0, (place / 64) as u32);
    }
}
