//! The search on many threads.

ghost use Rattle.std.specs.Prelude.{◌≡◌, ◌≤◌, ℕ, List, [], length, IfOk};
ghost use Rattle.graph_rules.specs.Graphs.{AreSettled, row};
ghost use Rattle.round_core.specs.Searches.{IsRounds, IsSearched, sum_reached};
ghost use Rattle.dist_table.specs.Histories.{IsLegal};
ghost use Rattle.dist_table.specs.Tables.{IsSamePass};
ghost use Rattle.steal_rounds.specs.MadeMoves.{HasGraph, HasMoves};
ghost use Rattle.steal_rounds.specs.declared.searches.TheConstants.{MAX_WORKERS};

use crate::gate::Gate;
use crate::order::in_order;
use crate::round::{rise, work_round};
use dist_table::{DistTable, Pass};
use round_core::{Settled, StepGraph};
use std::alloc::{AllocError, Global};
use std::marker::{Send, Sync};
use std::sync::Wait;
use std::thread::Threads;

/// The most workers of a search.
pub const MAX_WORKERS: u32 = 32;

/// How many rounds a search took, and how many moves it made.
#[derive(Clone, Copy, Debug, PartialEq, Eq)]
pub struct Searched {
    pub rounds: u32,
    pub relaxed: u64,
}

/// Searches a graph on the caller's table, with 1 to [`MAX_WORKERS`] workers, of which the calling thread is one. The
/// pass has seen nothing before. Afterwards its history has each move of each reached number, with the number's least
/// distance. Each round asks the rank of each of its numbers once and sorts the numbers by it.
///
/// `AllocError` where memory was refused; the workers' passes are joined all the same, so the history is legal. The
/// call may wait for its workers, for a steal that lost against another, and for the gate.
pub fn search_on<R: Threads + Wait + Sync, G: StepGraph + Sync, K: Gate + Sync>(
    rt: &R,
    alloc: Global,
    graph: &G,
    table: &DistTable<G>,
    pass: &mut Pass,
    workers: u32,
    gate: &K,
) -> Result<Searched, AllocError>
where
    G::Cursor: Send,
    requires graph { HasGraph table.now (G.origin graph.now) (G.lists graph.now) }
    requires workers { (1 ≤ workers) × (workers ≤ MAX_WORKERS) }
    requires pass { (pass.old.table ≡ table.now) × (pass.old.seen ≡ []) }
    ensures pass { IsSamePass pass.old pass.new }
    ensures legal { IsLegal table.now.origin table.now.lists pass.new.seen }
    ensures moves { IfOk result (λ _. HasMoves table.now pass.new.seen) }
    ensures rounds { IfOk result (λ s. IsRounds table.now.origin table.now.lists s.rounds) }
    ensures relaxed { IfOk result
        (λ s. (words : List ℕ) → AreSettled table.now.origin table.now.lists words
        → s.relaxed ≡ sum_reached (λ p. length (row table.now.lists p)) words) }
{
    let count = graph.count();
    let mut frontier = Vec::with_capacity(alloc, 1)?;
    frontier.push(graph.start())?;
    let mut rounds = 0;
    let mut relaxed: u64 = 0;
    'search: while frontier.len() > 0 {
        let order = in_order(alloc, graph, frontier.as_slice())?;
        let (mut notes, moves) = work_round(
            rt,
            alloc,
            graph,
            table,
            gate,
            pass,
            workers,
            order.as_slice(),
            rounds,
        )?;
        let Some(sum) = relaxed.checked_add(moves) else {
            return Err(AllocError);
        };
        relaxed = sum;
        rise(&mut notes)?;
        frontier = notes;
        rounds += 1;
    }
    Ok(Searched { rounds, relaxed })
}

/// The settled words of a graph, with the rounds and the moves that it takes to find them: the same that
/// `search_plain` gives, for each number of workers from 1 to [`MAX_WORKERS`] and each schedule.
///
/// It makes a table, searches on it, and closes it. `AllocError` where memory was refused. It may wait as
/// [`search_on`] may.
pub fn search<R: Threads + Wait + Sync, G: StepGraph + Sync, K: Gate + Sync>(
    rt: &R,
    alloc: Global,
    graph: &G,
    workers: u32,
    gate: &K,
) -> Result<Settled, AllocError>
where
    G::Cursor: Send,
    requires { (1 ≤ workers) × (workers ≤ MAX_WORKERS) }
    ensures { IfOk result (λ s. IsSearched (G.origin graph.now) (G.lists graph.now) s) }
{
    let (table, mut pass) = DistTable::new(alloc, graph)?;
    let searched = search_on(rt, alloc, graph, &table, &mut pass, workers, gate)?;
    let words = table.close(pass)?;
    Ok(Settled::new(words, searched.rounds, searched.relaxed))
}
