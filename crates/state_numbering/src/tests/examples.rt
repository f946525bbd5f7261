//! Two worked examples, with what a search reaches: entries that fall out of step, and a usual case.
ghost use Rattle.std.specs.Prelude.{◌≡◌, ◌<◌};
ghost use Rattle.steno_rules.specs.StateNumbers.{number_count};

use super::Over;
use crate::{ClosureGraph, Numbering};
use closure_state::{Hit, Moves, State};
use round_core::{Settled, StepGraph, search_plain};
use std::alloc::Global;
use std::process::Abort;
use stroke::Stroke;

/// The state of a number, and the stroke into it.
fn check_row(
    rt: &impl Abort,
    numbering: &Numbering<'_>,
    number: u32,
    state: Option<State>,
    code: Option<u32>,
) {
    assert_eq!(rt; numbering.state(number), state, "the state of {number}");
    let stroke = numbering.stroke_into(number).map(Stroke::code);
    assert_eq!(rt; stroke, code, "the stroke into {number}");
}

/// The state of these nodes and this mark.
fn at(window: u32, word: u32, mark: Option<u8>) -> Option<State> {
    Some(State { window, word, mark })
}

/// How many numbers are reached, and in how many rounds.
fn check_search(rt: &impl Abort, settled: &Settled, reached: usize, rounds: u32) {
    let mut found: usize = 0;
    for &word in settled.words() {
        if word != u64::MAX {
            found = found.saturating_add(1);
        }
    }
    assert_eq!(rt; found, reached);
    assert_eq!(rt; settled.rounds(), rounds);
}

/// The distance of a number and the one from which it is reached.
fn check_word(rt: &impl Abort, settled: &Settled, number: usize, distance: u64, source: u64) {
    let word = settled.words().get(number).copied().unwrap_or(u64::MAX);
    assert_eq!(rt; word >> 32, distance, "the distance of {number}");
    assert_eq!(rt; word & 0xffff_ffff, source, "the source of {number}");
}

/// The only reached number whose state is a hit.
fn check_hits(
    rt: &impl Abort,
    numbering: &Numbering<'_>,
    settled: &Settled,
    number: u32,
    hit: Hit,
) {
    for other in 0..numbering.count() {
        let word = settled.words().get(other as usize).copied();
        if word.is_some_and(|word| word != u64::MAX) {
            let want = if other == number { Some(hit) } else { None };
            assert_eq!(rt; numbering.hit_of(other), want, "the hit of {other}");
        }
    }
}

/// How many targets the state of a number has, kept or not, if they are fewer than 100.
fn count_targets(over: Over<'_>, number: u32) -> u64 {
    let Some(state) = over.numbering.state(number) else {
        return 0
    };
    let mut moves = Moves::first(over.trie, over.windows, over.words, &state);
    for count in 0..100 {
        if moves.next().is_none() {
            return count;
        }
    }
    100
}

/// How many numbers a graph has that may be lent to another thread, and whose cursors may go to one.
fn count_shared<G: StepGraph + Sync>(graph: &G) -> u32
where
    G::Cursor: Send,
{
    graph.count()
}

/// The settled words of the closure graph.
fn search(rt: &impl Abort, alloc: Global, numbering: &Numbering<'_>) -> Settled {
    let graph = ClosureGraph::new(numbering);
    assert_eq!(rt; count_shared(&graph), numbering.count());
    search_plain(alloc, &graph).expect(rt, "memory")
}

/// S, S/T, T/K/P, P/W and W.
pub(crate) fn check_out_of_step(rt: &impl Abort, alloc: Global, numbering: &Numbering<'_>) {
    assert_eq!(rt; numbering.count(), 54);
    check_row(rt, numbering, 0, at(0, 0, None), None);
    check_row(rt, numbering, 1, at(1, 0, None), Some(2));
    check_row(rt, numbering, 6, at(2, 3, None), Some(4));
    check_row(rt, numbering, 7, None, None);
    check_row(rt, numbering, 18, None, None);
    check_row(rt, numbering, 20, at(0, 4, None), Some(8));
    check_row(rt, numbering, 41, at(6, 0, Some(0)), Some(16));
    check_row(rt, numbering, 48, at(7, 0, Some(1)), Some(32));
    let settled = search(rt, alloc, numbering);
    check_search(rt, &settled, 21, 6);
    for (distance, walk) in [[0, 1], [1, 6], [6, 20], [20, 41], [41, 48]]
        .iter()
        .enumerate()
    {
        check_word(rt, &settled, walk[1], distance as u64 + 1, walk[0] as u64);
    }
    check_hits(rt, numbering, &settled, 48, Hit { entry: 3, place: 1 });
}

/// TEL, KAT and KAT/TEL.
pub(crate) fn check_usual_case(rt: &impl Abort, alloc: Global, over: Over<'_>) {
    assert_eq!(rt; over.numbering.count(), 17);
    let settled = search(rt, alloc, over.numbering);
    check_search(rt, &settled, 9, 3);
    assert_eq!(rt; settled.relaxed(), 10);
    let mut targets: u64 = 0;
    for (distance, number) in [
        (0, 0),
        (1, 1),
        (1, 4),
        (1, 5),
        (1, 6),
        (1, 8),
        (2, 9),
        (2, 14),
        (2, 15),
    ] {
        let word = settled.words().get(number as usize).copied();
        assert_eq!(rt;
            word.unwrap_or(u64::MAX) >> 32,
            distance,
            "the distance of {number}"
        );
        targets = targets.saturating_add(count_targets(over, number));
    }
    assert_eq!(rt; targets, 23);
    check_hits(rt, over.numbering, &settled, 15, Hit { entry: 2, place: 1 });
}
