//! The slow plain program, for the tests: which pairs stay in sequences of words, by trying them all.

use dict_stack::Stack;
use longest_match::segment;
use std::alloc::Global;
use std::process::Abort;
use stroke::Stroke;

/// A pair that some words have, and the fewest strokes of those that were tried.
#[derive(Clone, Copy, Drop)]
pub(crate) struct Found {
    pub(crate) entry: u32,
    pub(crate) place: u32,
    pub(crate) strokes: u32,
}

/// The strokes of some words, and where the boundaries between them are.
#[derive(Drop)]
struct Text {
    strokes: Vec<Stroke>,
    cuts: Vec<u32>,
}

/// What a sequence of words is written as.
fn written(rt: &impl Abort, alloc: Global, stack: &Stack, words: &[u32]) -> Text {
    let mut strokes = Vec::new(alloc);
    let mut cuts = Vec::new(alloc);
    for &word in words {
        assert!(rt; word < stack.entry_count() && strokes.len() < 1 << 20);
        cuts.push(strokes.len() as u32).expect(rt, "memory");
        for &stroke in stack.outline(word).strokes() {
            strokes.push(stroke).expect(rt, "memory");
        }
    }
    Text { strokes, cuts }
}

/// Keeps the pair with these strokes, if it has none fewer.
fn keep(rt: &impl Abort, pair: Found, found: &mut Vec<Found>) {
    for old in found.iter_mut() {
        if old.entry == pair.entry && old.place == pair.place {
            old.strokes = old.strokes.min(pair.strokes);
            return;
        }
    }
    found.push(pair).expect(rt, "memory");
}

/// Keeps the pairs of a piece: those at whose place a boundary lies.
fn keep_piece(
    rt: &impl Abort,
    cuts: &[u32],
    start: u32,
    len: u32,
    pair: Found,
    found: &mut Vec<Found>,
) {
    for place in 1..len {
        let at = start.saturating_add(place);
        if cuts.iter().any(|&cut| cut == at && cut != 0) {
            keep(rt, Found { place, ..pair }, found);
        }
    }
}

/// Keeps the pairs that a sequence of words has.
pub(crate) fn keep_pairs(
    rt: &impl Abort,
    alloc: Global,
    stack: &Stack,
    words: &[u32],
    found: &mut Vec<Found>,
) {
    let text = written(rt, alloc, stack, words);
    assert!(rt; text.strokes.len() < 1 << 30);
    let pieces = segment(alloc, stack.outlines(), &text.strokes).expect(rt, "memory");
    let mut start: u32 = 0;
    for piece in &pieces {
        if let Some(entry) = piece.entry {
            let pair = Found {
                entry,
                place: 0,
                strokes: text.strokes.len() as u32,
            };
            keep_piece(rt, &text.cuts, start, piece.len, pair, found);
        }
        start = start.saturating_add(piece.len);
    }
}

/// The sequence of so many of these words by its number.
fn sequence_of(rt: &impl Abort, alloc: Global, words: &[u32], number: u32, len: u32) -> Vec<u32> {
    let count = words.len();
    assert!(rt; 0 < count && count < 100);
    let mut rest = number;
    let mut sequence = Vec::new(alloc);
    for _turn in 0..len {
        let place = rest % count as u32;
        sequence.push(words[place as usize]).expect(rt, "memory");
        rest /= count as u32;
    }
    sequence
}

/// The numbers of the words of a stack.
fn word_numbers(rt: &impl Abort, alloc: Global, stack: &Stack) -> Vec<u32> {
    let mut numbers = Vec::new(alloc);
    for entry in 0..stack.entry_count() {
        let flags = stack.words();
        if (entry as usize) < flags.len() && flags[entry as usize] {
            numbers.push(entry).expect(rt, "memory");
        }
    }
    numbers
}

/// The pairs that stay in sequences of up to so many words.
pub(crate) fn plain_pairs(rt: &impl Abort, alloc: Global, stack: &Stack, most: u32) -> Vec<Found> {
    let words = word_numbers(rt, alloc, stack);
    let mut found = Vec::new(alloc);
    if words.is_empty() {
        return found;
    }
    assert!(rt; words.len() < 100);
    let mut total: u32 = 1;
    for len in 1..most.saturating_add(1) {
        total = total.saturating_mul(words.len() as u32);
        for number in 0..total {
            let sequence = sequence_of(rt, alloc, &words, number, len);
            keep_pairs(rt, alloc, stack, &sequence, &mut found);
        }
    }
    found
}
