//! The moves of some numbers, made on the table.

ghost use Rattle.std.specs.Prelude.{◌≡◌, ℕ, ◌<◌, ◌≤◌, ◌⊎◌, length, IfOk};
ghost use mathlib.Core.List.{IsPrefix};
ghost use Rattle.graph_rules.specs.Graphs.{row, Reaches};
ghost use Rattle.round_core.specs.inside.InRounds.{moves_of};
ghost use Rattle.round_core.specs.Rounds.{Has};
ghost use Rattle.dist_table.specs.declared.table.TheConstants.{DISTANCES};
ghost use Rattle.steal_rounds.specs.MadeMoves.{HasGraph};
ghost use Rattle.steal_rounds.specs.inside.Moves.{AddsFound, FoundBy, HasInside, IsLaterPass, IsLegalPass, Spread, Worked};
ghost use Rattle.steal_rounds.specs.inside.Crews.{IsRound};

use dist_table::{DistTable, Pass};
use round_core::{StepGraph, word_after};
use std::alloc::AllocError;

/// Makes each move of each state, and answers how many. The list of targets is taken for each state in turn, so that
/// memory for it is asked for once.
pub(crate) fn spread_all<G: StepGraph>(
    graph: &G,
    table: &DistTable<G>,
    distance: u32,
    states: &[u32],
    pass: &mut Pass,
    targets: &mut Vec<u32>,
    notes: &mut Vec<u32>,
) -> Result<u64, AllocError>
    requires graph { HasGraph table.now (G.origin graph.now) (G.lists graph.now) }
    requires round { IsRound table.now distance states.now }
    requires few { length states.now ≤ 64 }
    requires pass { IsLegalPass table.now pass.old }
    ensures pass { IsLaterPass table.now pass.old pass.new }
    ensures notes { IsPrefix notes.old.items notes.new.items }
    ensures adds { AddsFound table.now
        distance states.now pass.old.seen pass.new.seen notes.old.items notes.new.items }
    ensures made { IfOk result
        (λ _. Worked table.now distance pass.new.seen notes.new.items states.now) }
    ensures count { IfOk result (λ moves. moves ≡ moves_of table.now.lists states.now) }
{
    let mut moves = 0;
    for state in states {
        moves += spread(graph, table, distance, *state, pass, targets, notes)?;
    }
    Ok(moves)
}

/// Makes each move of a state, and answers how many. What stood in the list of targets is lost.
pub(crate) fn spread<G: StepGraph>(
    graph: &G,
    table: &DistTable<G>,
    distance: u32,
    state: u32,
    pass: &mut Pass,
    targets: &mut Vec<u32>,
    notes: &mut Vec<u32>,
) -> Result<u64, AllocError>
    requires graph { HasGraph table.now (G.origin graph.now) (G.lists graph.now) }
    requires near { distance < DISTANCES }
    requires state { (state < length table.now.lists)
        × Reaches table.now.origin table.now.lists distance state }
    requires inside { HasInside table.now }
    requires pass { IsLegalPass table.now pass.old }
    ensures pass { IsLaterPass table.now pass.old pass.new }
    ensures notes { IsPrefix notes.old.items notes.new.items }
    ensures adds { (u : ℕ) → Has notes.new.items u
        → Has notes.old.items u ⊎ FoundBy table.now distance pass.old.seen pass.new.seen state u }
    ensures made { IfOk result
        (λ _. Spread table.now distance pass.new.seen notes.new.items state) }
    ensures count { IfOk result (λ moves. (moves ≡ length (row table.now.lists state))
        × (moves < 4294967296)) }
{
    targets.clear();
    graph.push_targets(state, targets)?;
    relax_all(table, distance, state, targets.as_slice(), pass, notes)?;
    Ok(targets.len() as u64)
}

/// Makes the move to each target of a state. A target is noted where its word wasn't less before: the first of the
/// moves to it has found it so, whatever the others do.
fn relax_all<G: StepGraph>(
    table: &DistTable<G>,
    distance: u32,
    state: u32,
    targets: &[u32],
    pass: &mut Pass,
    notes: &mut Vec<u32>,
) -> Result<(), AllocError>
    requires near { distance < DISTANCES }
    requires state { (state < length table.now.lists)
        × Reaches table.now.origin table.now.lists distance state }
    requires inside { HasInside table.now }
    requires targets { targets.now ≡ row table.now.lists state }
    requires pass { IsLegalPass table.now pass.old }
    ensures pass { IsLaterPass table.now pass.old pass.new }
    ensures notes { IsPrefix notes.old.items notes.new.items }
    ensures adds { (u : ℕ) → Has notes.new.items u
        → Has notes.old.items u ⊎ FoundBy table.now distance pass.old.seen pass.new.seen state u }
    ensures made { IfOk result
        (λ _. Spread table.now distance pass.new.seen notes.new.items state) }
{
    let value = word_after(distance, state);
    for target in targets {
        let reply = table.relax(pass, *target, distance, state);
        if reply >= value {
            notes.push(*target)?;
        }
    }
    Ok(())
}
