//! All numbers and all states of small sets, there and back.

use super::Over;
use crate::Numbering;
use closure_state::{State, is_state};
use std::process::Abort;

/// Each number with a state is that of its state. Answers how many have one.
fn check_numbers(rt: &impl Abort, numbering: &Numbering<'_>) -> u64 {
    let mut found: u64 = 0;
    for number in 0..numbering.count() {
        match numbering.state(number) {
            Some(state) => {
                assert_eq!(rt; numbering.number(state), number);
                found = found.saturating_add(1);
            }
            None => {
                assert!(rt; numbering.stroke_into(number).is_none());
                assert!(rt; numbering.hit_of(number).is_none());
            }
        }
    }
    found
}

/// Whether the nodes and the mark are those of a state. Then its number leads back to it.
fn check_state(rt: &impl Abort, over: Over<'_>, state: State) -> bool {
    if !is_state(over.trie, over.words, &state) {
        return false;
    }
    let number = over.numbering.number(state);
    assert_eq!(rt; over.numbering.state(number), Some(state));
    true
}

/// How many states of these nodes there are, without a mark or with one below 4.
fn check_marks(rt: &impl Abort, over: Over<'_>, window: u32, word: u32) -> u64 {
    let mut found: u64 = 0;
    for mark in [None, Some(0), Some(1), Some(2), Some(3)] {
        if check_state(rt, over, State { window, word, mark }) {
            found = found.saturating_add(1);
        }
    }
    found
}

/// The states of entries of at most 4 strokes are as many as the numbers that have one.
pub(crate) fn check_set(rt: &impl Abort, over: Over<'_>) {
    assert!(rt; over.trie.longest_entry() <= 4);
    let mut found: u64 = 0;
    for window in 0..over.trie.node_count() {
        for word in 0..over.trie.node_count() {
            found = found.saturating_add(check_marks(rt, over, window, word));
        }
    }
    assert_eq!(rt; check_numbers(rt, over.numbering), found);
    assert!(rt; over.numbering.state(over.numbering.count()).is_none());
    assert!(rt; over.numbering.state(u32::MAX).is_none());
}
