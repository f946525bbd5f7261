//! The search by rounds on one thread: breadth first, with the least source of each number instead of the first one.
ghost use Rattle.std.specs.Prelude.{◌≡◌, ◌+◌, ◌*◌, ◌<◌, ◌≤◌, length, take, IfOk};
ghost use Rattle.graph_rules.specs.Graphs.{most_numbers, word_half};
ghost use Rattle.round_core.specs.inside.InRounds.{IsReady, moves_of};
ghost use Rattle.round_core.specs.Searches.{IsSearched};

use crate::settled::Settled;
use crate::step_graph::StepGraph;
use crate::word::word_after;
use std::alloc::{AllocError, Global};

/// The settled words of a graph, with the rounds and the moves that it takes to find them.
///
/// It asks once for each target of each reached number, and takes memory twice, for the settled words and for a queue
/// of all numbers that are reached. `AllocError` only where one of the two was refused.
pub fn search_plain<G: StepGraph>(alloc: Global, graph: &G) -> Result<Settled, AllocError>
    ensures { IfOk result (λ s. IsSearched (G.origin graph.now) (G.lists graph.now) s) }
{
    let count = graph.count() as usize;
    let start = graph.start();
    let mut words = Vec::from_elem(alloc, u64::MAX, count)?;
    words[start as usize] = 0;
    let mut queue = Vec::with_capacity(alloc, count)?;
    queue.push(start)?;
    let mut at = 0;
    let mut rounds = 0;
    let mut relaxed = 0;
    while at < queue.len() {
        let end = queue.len();
        relaxed += relax_round(graph, &mut words, &mut queue, at, rounds)?;
        at = end;
        rounds += 1;
    }
    Ok(Settled::new(words, rounds, relaxed))
}

/// Makes each move of the queued numbers from `begin` on, which are those at this distance, and queues the numbers that
/// are reached by them for the first time. The queue has room for all numbers. Answers how many moves it made.
fn relax_round<G: StepGraph>(
    graph: &G,
    words: &mut Vec<u64>,
    queue: &mut Vec<u32>,
    begin: usize,
    distance: u32,
) -> Result<u64, AllocError>
    requires ready { IsReady (G.origin graph.now) (G.lists graph.now) distance begin
        words.old.items queue.old.items }
    requires few { (length (G.lists graph.now) ≤ most_numbers) × (distance < most_numbers)
        × (begin ≤ length queue.old.items) × (length queue.old.items ≤ most_numbers) }
    ensures ready { IfOk result (λ _. IsReady (G.origin graph.now) (G.lists graph.now)
        (distance + 1) (length queue.old.items) words.new.items queue.new.items) }
    ensures longer { IfOk result (λ _. take (length queue.old.items) queue.new.items ≡
        queue.old.items) }
    ensures moves { IfOk result (λ moves.
        moves_of (G.lists graph.now) (take begin queue.old.items) + moves
        ≡ moves_of (G.lists graph.now) queue.old.items) }
    ensures bound { IfOk result (λ moves.
        moves + begin * word_half ≤ length queue.old.items * word_half) }
{
    let end = queue.len();
    let mut moves = 0;
    for at in begin..end {
        let state = queue[at];
        let word = word_after(distance, state);
        let mut cursor = graph.first(state);
        while let Some(target) = graph.next(&mut cursor) {
            let found = words[target as usize];
            if word < found {
                if found == u64::MAX {
                    queue.push(target)?;
                }
                words[target as usize] = word;
            }
            moves += 1;
        }
    }
    Ok(moves)
}
