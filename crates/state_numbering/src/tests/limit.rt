//! The most numbers, and more.

use super::{S, made, outline_of_codes};
use crate::{NumberFault, Numbering};
use match_window::Windows;
use std::alloc::Global;
use std::process::Abort;
use stroke::Outline;

/// The outlines of 64 strokes that begin with the codes from 1 on and go on with S.
fn long_outlines(rt: &impl Abort, alloc: Global, count: u32) -> Vec<Outline> {
    let mut outlines = Vec::new(alloc);
    for code in 1..=count {
        let mut codes = [S; 64];
        codes[0] = code;
        outlines
            .push(outline_of_codes(rt, alloc, &codes))
            .expect(rt, "memory");
    }
    outlines
}

/// The greatest number is that of a state, too. Answers how many there are.
fn count_all(rt: &impl Abort, numbering: &Numbering<'_>) -> u32 {
    let last = numbering.count() - 1;
    let state = numbering.state(last).expect(rt, "a state");
    assert_eq!(rt; numbering.number(state), last);
    numbering.count()
}

/// How many numbers so many of these outlines need, or why they have none.
fn count_long(rt: &impl Abort, alloc: Global, count: u32) -> Result<u32, NumberFault> {
    let outlines = long_outlines(rt, alloc, count);
    let flags = vec![in alloc; true; count as usize].expect(rt, "memory");
    let (trie, words) = made(rt, alloc, &outlines, &flags);
    let windows = Windows::new(alloc, &trie).expect(rt, "memory");
    match Numbering::new(alloc, &trie, &windows, &words) {
        Ok(numbering) => Ok(count_all(rt, &numbering)),
        Err(fault) => Err(fault),
    }
}

#[test]
fn most_numbers(rt: HostRuntime) {
    let found = count_long(&rt, rt.alloc(), 671);
    assert_eq!(&rt; found, Ok(33_539_265));
}

#[test]
fn one_outline_too_many(rt: HostRuntime) {
    let found = count_long(&rt, rt.alloc(), 672);
    assert_eq!(&rt;
        found,
        Err(NumberFault::TooManyStates { count: 33_589_249 })
    );
}
