//! The two readings, from the settled words of a search.
ghost use Rattle.std.specs.Prelude.{◌≡◌, ◌≢◌, ◌≤◌, ◌↔◌, IfOk, IfSome, None, map, slice_index};
ghost use Rattle.closure_laws.specs.Examples.{trail};
ghost use Rattle.graph_rules.specs.Graphs.{AreSettled, most_numbers, unreached};
ghost use Rattle.steno_rules.specs.Outlines.{AreWords};
ghost use Rattle.reading_laws.specs.ChosenReadings.{open_fork};
ghost use Rattle.reading_laws.specs.ForkNumbers.{end_number, fork_count, fork_lists};
ghost use Rattle.reading_laws.specs.Readings.{IsFree};
ghost use Rattle.free_parse.specs.FoundReadings.{AreBothNumbers, AreChosenTwo, AreFewest};
ghost use Rattle.free_parse.specs.inside.Halves.{AreNumbersOf, ended_after};
ghost use Rattle.free_parse.specs.inside.Walks.{IsShortestWalkTo};

use crate::graph::FreeGraph;
use crate::halves::NumberedHalves;
use crate::two::Readings;
use std::alloc::{AllocError, Global};

/// A settled word is a distance times so much, and a number.
const NUMBERS: u64 = 1 << 32;

/// The numbers of the walk of so many moves to a number, the last one first and without the start.
fn walk_back(
    alloc: Global,
    graph: &FreeGraph<'_>,
    table: &[u64],
    number: u32,
    distance: u32,
) -> Result<Vec<u32>, AllocError>
    requires { IsShortestWalkTo graph.now table.now number distance }
    ensures { IfOk result (λ path. path.items ≡ trail table.now distance number) }
{
    let mut path = Vec::with_capacity(alloc, distance as usize)?;
    let mut at = number;
    for _ in 0..distance {
        path.push(at)?;
        at = (table[at as usize] % NUMBERS) as u32;
    }
    Ok(path)
}

/// Reads the forks of these numbers, from the last one on, and the end.
fn read(
    alloc: Global,
    graph: &FreeGraph<'_>,
    path: &mut Vec<u32>,
) -> Result<NumberedHalves, AllocError>
    ensures { let g = graph.now in
        IfOk result (AreNumbersOf g.entries
        (ended_after g.words (map (open_fork g.entries g.words) path.old.items))) }
{
    let mut halves = NumberedHalves::new(alloc);
    let mut at = graph.fork(0);
    while let Some(number) = path.pop() {
        let next = graph.fork(number);
        halves.go_on_if(graph, at, next)?;
        at = next;
    }
    halves.end_both(graph, at)?;
    Ok(halves)
}

/// Two readings of fewest strokes, from the settled words of the graph. None exactly where the words are free: where no
/// strokes can be read as words in two ways.
///
/// The walk to the end by the settled words decides which ones they are. It takes memory for that walk and for the
/// words, and a few look-ups for each stroke.
pub fn readings(
    alloc: Global,
    graph: &FreeGraph<'_>,
    table: &[u64],
) -> Result<Option<Readings>, AllocError>
    requires settled { AreSettled 0 (fork_lists graph.now.entries graph.now.words) table.now }
    ensures free { IfOk result (λ two. (two ≡ None) ↔ IsFree graph.now.words) }
    ensures fewest { IfOk result (λ two.
        IfSome two (AreFewest graph.now.entries graph.now.words)) }
    ensures chosen { IfOk result (λ two.
        IfSome two (AreChosenTwo graph.now.entries graph.now.words table.now)) }
    ensures numbers { IfOk result (λ two. IfSome two (AreBothNumbers graph.now.entries)) }
{
    let word = table[graph.end() as usize];
    if word == u64::MAX {
        Ok(None)
    } else {
        let two = two_of(alloc, graph, table, word)?;
        Ok(Some(two))
    }
}

/// The two readings, where the end has this word.
fn two_of(
    alloc: Global,
    graph: &FreeGraph<'_>,
    table: &[u64],
    word: u64,
) -> Result<Readings, AllocError>
    requires settled { AreSettled 0 (fork_lists graph.now.entries graph.now.words) table.now }
    requires few { fork_count graph.now.entries ≤ most_numbers }
    requires words { AreWords graph.now.entries graph.now.words }
    requires word { word ≡ slice_index table.now (end_number graph.now.entries) }
    requires reached { word ≢ unreached }
    ensures fewest { IfOk result (AreFewest graph.now.entries graph.now.words) }
    ensures chosen { IfOk result (AreChosenTwo graph.now.entries graph.now.words table.now) }
    ensures numbers { IfOk result (AreBothNumbers graph.now.entries) }
{
    let strokes = (word / NUMBERS) as u32;
    let mut path = walk_back(alloc, graph, table, (word % NUMBERS) as u32, strokes - 1)?;
    let halves = read(alloc, graph, &mut path)?;
    Ok(Readings::new(strokes, halves.first, halves.second))
}
