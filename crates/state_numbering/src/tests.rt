//! What the tests have in common: a numbering over entries that are given by their codes.
ghost use Rattle.std.specs.Prelude.{◌≡◌};
ghost use Rattle.steno_rules.specs.WordSets.{IsWordSet};
ghost use Rattle.state_numbering.specs.Numberings.{numbering_of};

mod examples;
mod limit;
mod sets;

use self::examples::{check_out_of_step, check_usual_case};
use self::sets::check_set;
use crate::Numbering;
use closure_state::WordSet;
use match_window::Windows;
use outline_trie::Trie;
use std::alloc::Global;
use std::process::Abort;
use stroke::{Outline, Stroke, are_entries};

const S: u32 = 2;

/// A numbering, and what it is over.
#[derive(Clone, Copy)]
struct Over<'x> {
    trie: &'x Trie,
    windows: &'x Windows<'x>,
    words: &'x WordSet,
    numbering: &'x Numbering<'x>,
    ghost windows_are: { windows.now ≡ trie.now },
    ghost set: { IsWordSet trie.now words.now },
    ghost over: { numbering.now ≡ numbering_of trie.now words.now },
}

/// The outline of these codes.
fn outline_of_codes(rt: &impl Abort, alloc: Global, codes: &[u32]) -> Outline {
    let mut outline = Outline::new(alloc);
    for &code in codes {
        if outline.strokes().len() < Outline::MAX {
            outline
                .push(Stroke::new(code).expect(rt, "a code"))
                .expect(rt, "memory");
        }
    }
    outline
}

/// The trie of these entries and the words among them by their flags.
fn made(rt: &impl Abort, alloc: Global, outlines: &[Outline], flags: &[bool]) -> (Trie, WordSet)
    ensures { IsWordSet result.0 result.1 }
{
    assert!(rt; outlines.len() < 1 << 20 && are_entries(outlines));
    assert!(rt; flags.len() == outlines.len());
    let trie = Trie::new(alloc, outlines).expect(rt, "a trie");
    let words = WordSet::new(alloc, &trie, flags).expect(rt, "memory");
    (trie, words)
}

/// What is checked of a numbering.
#[derive(Clone, Copy)]
enum Check {
    Set,
    OutOfStep,
    UsualCase,
}

/// Checks a numbering.
fn check_over(rt: &impl Abort, alloc: Global, over: Over<'_>, check: Check) {
    match check {
        Check::Set => check_set(rt, over),
        Check::OutOfStep => check_out_of_step(rt, alloc, over.numbering),
        Check::UsualCase => check_usual_case(rt, alloc, over),
    }
}

/// Checks the numbering over entries of these codes, of which those with the flag are words.
fn check_entries(rt: &impl Abort, alloc: Global, table: &[&[u32]], flags: &[bool], check: Check) {
    let mut outlines = Vec::new(alloc);
    for codes in table {
        outlines
            .push(outline_of_codes(rt, alloc, codes))
            .expect(rt, "memory");
    }
    let (trie, words) = made(rt, alloc, &outlines, flags);
    let windows = Windows::new(alloc, &trie).expect(rt, "memory");
    let numbering = Numbering::new(alloc, &trie, &windows, &words).expect(rt, "a numbering");
    let over = Over {
        trie: &trie,
        windows: &windows,
        words: &words,
        numbering: &numbering,
    };
    check_over(rt, alloc, over, check);
}

#[test]
fn small_sets(rt: HostRuntime) {
    let alloc = rt.alloc();
    check_entries(&rt, alloc, &[], &[], Check::Set);
    check_entries(&rt, alloc, &[&[2], &[2, 2]], &[true; 2], Check::Set);
    check_entries(
        &rt,
        alloc,
        &[&[2], &[2, 4, 8], &[4], &[8]],
        &[true; 4],
        Check::Set,
    );
    check_entries(
        &rt,
        alloc,
        &[&[2], &[2, 4, 8], &[4], &[8]],
        &[true, false, true, true],
        Check::Set,
    );
    let table: [&[u32]; 4] = [&[2, 2, 2, 2], &[2, 4], &[4, 2, 2], &[4, 4, 2, 4]];
    check_entries(&rt, alloc, &table, &[true, true, false, true], Check::Set);
}

#[test]
fn out_of_step(rt: HostRuntime) {
    let table: [&[u32]; 5] = [&[2], &[2, 4], &[4, 8, 16], &[16, 32], &[32]];
    check_entries(&rt, rt.alloc(), &table, &[true; 5], Check::OutOfStep);
    check_entries(&rt, rt.alloc(), &table, &[true; 5], Check::Set);
}

#[test]
fn usual_case(rt: HostRuntime) {
    let table: [&[u32]; 3] = [&[133_124], &[524_552], &[524_552, 133_124]];
    check_entries(&rt, rt.alloc(), &table, &[true; 3], Check::UsualCase);
}
